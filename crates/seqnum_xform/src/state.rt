ghost use Rattle.number_set.specs.Marked.{IsMarked};
ghost use Rattle.seqnum_xform.specs.Numbering.{seen_of};

use crate::SeenNumbers;
use std::marker::Model;
use vst_base::Node;

/// What a node remembers: the state of the handlers within, the number of the next packet, and the numbers that were seen of
/// each sender.
#[derive(Drop)]
pub struct SeqState<S> {
    pub(crate) inner: S,
    pub(crate) next: u64,
    pub(crate) seen: SeenNumbers,
}

impl<S> Model for SeqState<S> {
    ghost use Rattle.seqnum_xform.specs.Numbering.{Numbered, numbered_code};

    ghost Value = { Numbered S };

    ghost coded = { numbered_code S.code };

    ghost view = { λ s. record { inner = s.inner; next = s.next; seen = s.seen } };
}

impl<S> SeqState<S> {
    /// The least number that was not seen of the sender, and those above it that were, in ascending order: 0 and none of a sender of whom
    /// nothing was seen.
    pub fn gaps(&self, from: Node) -> (u64, &[u64])
        ensures { IsMarked (seen_of self.now.seen from) result.0 result.1.now }
    {
        self.seen.gaps(from)
    }
}
