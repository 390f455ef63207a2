ghost use Rattle.std.specs.Prelude.{◌≡◌};
ghost use Rattle.vst_base.specs.Entries.{IsElectionTerm};
ghost use Rattle.raft_types.specs.Messages.{IsIndex};

use std::marker::Model;

/// A node in a term, from 1 to `MAX_TERM`, answers a leader that sent entries. Contracts see the record of its
/// parts.
#[derive(Clone, Copy, Debug, PartialEq, Eq)]
pub struct Appended {
    term: u64,
    ok: bool,
    index: u32,
}

impl Model for Appended {
    ghost use Rattle.vst_base.specs.Entries.{IsElectionTerm};
    ghost use Rattle.raft_types.specs.Messages.{AppendedView};
    ghost use Rattle.raft_types.specs.Messages.{IsIndex};

    ghost Value = { AppendedView };

    ghost view = { λ r. record { term = r.term; ok = r.ok; index = r.index } };

    ghost invariant = { λ r. IsElectionTerm r.term × IsIndex r.index };

    ghost inverse = { λ v. record { term = v.term; ok = v.ok; index = v.index } };
}

impl Appended {
    /// The answer of a node in this term. Where it is yes, the node has the leader's entries up to the
    /// index, and else it took none after it.
    pub fn new(term: u64, ok: bool, index: u32) -> Self
        requires term { IsElectionTerm term }
        requires index { IsIndex index }
        ensures { result ≡ record { term = term; ok = ok; index = index } }
    {
        Appended { term, ok, index }
    }

    /// The term of the node that answers.
    pub fn term(&self) -> u64
        ensures value { result ≡ self.now.term }
        ensures in_range { IsElectionTerm result }
    {
        self.term
    }

    /// Whether it took the entries.
    pub fn ok(&self) -> bool
        ensures { result ≡ self.now.ok }
    {
        self.ok
    }

    /// The index that it answers for, at most `MAX_INDEX`: up to which it has the leader's entries, or after
    /// which it took none.
    pub fn index(&self) -> u32
        ensures value { result ≡ self.now.index }
        ensures in_range { IsIndex result }
    {
        self.index
    }
}
