ghost use Rattle.std.specs.Prelude.{◌≡◌};
ghost use Rattle.vst_base.specs.Entries.{IsElectionTerm};

use std::marker::Model;

/// A node in a term, from 1 to `MAX_TERM`, answers a candidate that asked for its vote. Contracts see the
/// record of its parts.
#[derive(Clone, Copy, Debug, PartialEq, Eq)]
pub struct Vote {
    term: u64,
    granted: bool,
}

impl Model for Vote {
    ghost use Rattle.vst_base.specs.Entries.{IsElectionTerm};
    ghost use Rattle.raft_types.specs.Messages.{VoteView};

    ghost Value = { VoteView };

    ghost view = { λ r. record { term = r.term; granted = r.granted } };

    ghost invariant = { λ r. IsElectionTerm r.term };

    ghost inverse = { λ v. record { term = v.term; granted = v.granted } };
}

impl Vote {
    /// The answer of a node in this term.
    pub fn new(term: u64, granted: bool) -> Self
        requires { IsElectionTerm term }
        ensures { result ≡ record { term = term; granted = granted } }
    {
        Vote { term, granted }
    }

    /// The term of the node that answers.
    pub fn term(&self) -> u64
        ensures value { result ≡ self.now.term }
        ensures in_range { IsElectionTerm result }
    {
        self.term
    }

    /// Whether the candidate has the node's vote.
    pub fn granted(&self) -> bool
        ensures { result ≡ self.now.granted }
    {
        self.granted
    }
}
