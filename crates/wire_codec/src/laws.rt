ghost use Rattle.std.specs.Prelude.{◌≡◌, ◌≤◌, ℕ, List, Some, length};
ghost use Rattle.wire_codec.specs.Bodies.{AreMessagesOf};
ghost use Rattle.wire_codec.specs.Datagrams.{AreBytesOf, longest_message, read_typed, spell_datagram};
ghost use Rattle.wire_codec.specs.Headings.{heading};
ghost use Rattle.wire_codec.specs.declared.heading.Heading.{Heading};

use wire_messages::Wire;

/// A message that has bytes is that of a datagram, under each heading in range that is of a stack and kind which have it, where its
/// bytes are short enough beside the 22 of the heading.
pub fn fitting_messages_have_datagrams<M: Wire>()
    ensures { (h : Heading) (message : M) → AreMessagesOf h.stack h.kind M.format → heading.Fits h → M.format.Fits message
        → length (M.format.spell message) ≤ longest_message → AreBytesOf M.format h message (spell_datagram M.format h message) }
{}

/// What is encoded reads back, and what is read has no other bytes: so no two byte strings are one datagram, and none is two. It holds
/// of each stack and kind, over the type of its messages.
pub fn datagrams_have_one_spelling<M: Wire>()
    ensures reads_back { (h : Heading) (message : M) (bs : List ℕ) → AreBytesOf M.format h message bs
        → read_typed M.format bs ≡ Some (h, message) }
    ensures one_spelling { (bs : List ℕ) (h : Heading) (message : M) → AreMessagesOf h.stack h.kind M.format
        → read_typed M.format bs ≡ Some (h, message) → AreBytesOf M.format h message bs }
{}
