ghost use Rattle.std.specs.Prelude.{◌≡◌, ℕ, List, Some, Err};
ghost use Rattle.node_body.specs.BaseLaws.{BaseIsFound};
ghost use Rattle.node_body.specs.Bodies.{IsBodyOf, body, entry_in, read_body};
ghost use Rattle.node_body.specs.FoundLaws.{ClosedGateHides, GateIsEither, OpenGateAdds, RecordIsHarmless};
ghost use Rattle.node_body.specs.Fronts.{FrontsDecide, LastGateDecides, LongerFrontsDecide};
ghost use Rattle.node_body.specs.GateLaws.{LastGateStands};
ghost use Rattle.node_body.specs.GatedRecords.{RecordsAlone, RecordsAreFound};
ghost use Rattle.node_body.specs.Journals.{change};
ghost use Rattle.node_body.specs.OwnLaws.{OwnIsFound, StackIsTold};
ghost use Rattle.node_body.specs.Slots.{sized, slot_found};
ghost use Rattle.node_body.specs.WhyLaws.{HasNoBody};
ghost use Rattle.node_body.specs.declared.version.Version.{Version};
ghost use Rattle.node_body.specs.declared.who.Who.{Who};
ghost use Rattle.raft_types.specs.Messages.{KeptView};
ghost use Rattle.wire_fields.specs.Formats.{IsFormat};

use crate::{Commands, Why};

/// Each body has one spelling in its version; what is put reads back, and what is taken has no other bytes.
pub fn bodies_have_one_spelling<C: Commands>()
    ensures bodies { IsFormat (body C.stack C.format) }
    ensures slots { IsFormat sized }
    ensures reads_back { (bs : List ℕ) (who : Who) (k : KeptView C) → IsBodyOf C.stack C.format who k bs
        → read_body C.stack C.format bs ≡ Some (who, k) }
    ensures one_spelling { (bs : List ℕ) (who : Who) (k : KeptView C) → read_body C.stack C.format bs ≡ Some (who, k)
        → IsBodyOf C.stack C.format who k bs }
{}

/// Which bytes are no body to a node, and that it finds the state in its base.
pub fn bodies_are_found<C: Commands>()
    ensures bases { BaseIsFound C.stack C.format }
    ensures none { (who : Who) (bs : List ℕ) → HasNoBody C.stack C.format bs
        → slot_found C.stack C.format who bs ≡ Err Why.Body }
    ensures none_alone { (who : Who) (bs : List ℕ) → slot_found C.stack C.format who bs ≡ Err Why.Body
        → HasNoBody C.stack C.format bs }
{}

/// What a node finds in a slot, whatever a crash makes of what is written from its last gate on.
pub fn gates_are_exact<C: Commands>()
    // Where a record may follow there is a gate, and what it hides has no part in the state.
    ensures stands { LastGateStands C.stack C.format }
    // What stands after a closed gate is not read.
    ensures hides { ClosedGateHides C.stack C.format }
    // A record counts as soon as its gate is open, and whole.
    ensures adds { OpenGateAdds C.stack C.format }
    // A record that is torn after a closed gate changes nothing.
    ensures harmless { RecordIsHarmless C.stack C.format }
    // A gate that is torn leaves the state before the record or the one after it.
    ensures either { GateIsEither C.stack C.format }
{}

/// The bytes of a slot up to its first closed gate decide what it is, and so do those of a body that is none.
pub fn fronts_decide<C: Commands>()
    // What a front decides is what each slot is that begins with it; the gate hides what stands after the front too.
    ensures slots { FrontsDecide C.stack C.format }
    // A longer front decides the same.
    ensures longer { LongerFrontsDecide C.stack C.format }
    // Bytes that have the last gate of a slot to which a record may be added decide it.
    ensures gates { LastGateDecides C.stack C.format }
{}

/// A journal is found in exactly the bytes of its records: each after an open gate, at most so many, and a closed gate after them.
pub fn journals_hold_records<C: Commands>()
    ensures found { (version : Version) (nodes : ℕ) → RecordsAreFound (change nodes (entry_in version C.format)) }
    ensures alone { (version : Version) (nodes : ℕ) → RecordsAlone (change nodes (entry_in version C.format)) }
{}

/// What a node finds that names the stack of its commands: a state of its own, or, in the slot of another stack, the byte of that one
/// beside that of its own.
pub fn found_states_are_own<C: Commands>()
    ensures own { OwnIsFound C.stack C.format }
    ensures stack { StackIsTold C.stack C.format }
{}
