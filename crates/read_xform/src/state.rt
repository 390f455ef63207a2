ghost use Rattle.std.specs.Prelude.{◌≡◌};

use crate::Waiting;
use crate::reads::Reads;
use raft_xform::RaftState;
use std::marker::Model;

/// What a node remembers: what a node of Raft does, what it knows of reads, and the reads that its last event answered. Contracts see the
/// record of these.
#[derive(Drop)]
pub struct ReadState<S, C, O> {
    pub(crate) raft: RaftState<S, C, O>,
    pub(crate) reads: Reads<C>,
    pub(crate) answered: Vec<Waiting<C>>,
}

impl<S, C, O> Model for ReadState<S, C, O> {
    ghost use Rattle.raft_reads.specs.Reads.{ReadView};
    ghost use Rattle.read_xform.specs.Codes.{reader_code};

    ghost Value = { ReadView S C O };

    ghost coded = { reader_code S.code C.code O.code };

    ghost view = { λ s. record { raft = s.raft; reads = s.reads; answered = s.answered.items } };
}

impl<S, C: Drop, O> ReadState<S, C, O> {
    /// The round that the node is in: how many reads began to wait since it leads in its term, and 0 where it does not lead.
    pub fn round(&self) -> u64
        ensures { result ≡ self.now.reads.round }
    {
        self.reads.round()
    }

    /// What it knows as a node of Raft: its term, its vote and its log.
    pub fn raft(&self) -> &RaftState<S, C, O>
        ensures { result.now ≡ self.now.raft }
    {
        &self.raft
    }
}
