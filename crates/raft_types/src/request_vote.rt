ghost use Rattle.std.specs.Prelude.{◌≡◌};
ghost use Rattle.vst_base.specs.Entries.{IsElectionTerm};
ghost use Rattle.raft_types.specs.Messages.{IsIndex, IsTerm};

use std::marker::Model;

/// A candidate of a term, from 1 to `MAX_TERM`, asks for a vote, and tells the index and the term of the last
/// entry of its log. Contracts see the record of its parts.
#[derive(Clone, Copy, Debug, PartialEq, Eq)]
pub struct RequestVote {
    term: u64,
    last_index: u32,
    last_term: u64,
}

impl Model for RequestVote {
    ghost use Rattle.vst_base.specs.Entries.{IsElectionTerm};
    ghost use Rattle.raft_types.specs.Messages.{RequestVoteView};
    ghost use Rattle.raft_types.specs.Messages.{IsIndex, IsTerm};

    ghost Value = { RequestVoteView };

    ghost view = { λ r. record { term = r.term; last_index = r.last_index; last_term = r.last_term } };

    ghost invariant = { λ r. IsElectionTerm r.term × IsIndex r.last_index × IsTerm r.last_term };

    ghost inverse = { λ v. record { term = v.term; last_index = v.last_index; last_term = v.last_term } };
}

impl RequestVote {
    /// The request of a candidate of this term, whose log ends at this index with this term. Both are 0
    /// where the log is empty.
    pub fn new(term: u64, last_index: u32, last_term: u64) -> Self
        requires term { IsElectionTerm term }
        requires last_index { IsIndex last_index }
        requires last_term { IsTerm last_term }
        ensures { result ≡ record { term = term; last_index = last_index; last_term = last_term } }
    {
        RequestVote {
            term,
            last_index,
            last_term,
        }
    }

    /// The candidate's term.
    pub fn term(&self) -> u64
        ensures value { result ≡ self.now.term }
        ensures in_range { IsElectionTerm result }
    {
        self.term
    }

    /// The index of the last entry of the candidate's log, at most `MAX_INDEX`.
    pub fn last_index(&self) -> u32
        ensures value { result ≡ self.now.last_index }
        ensures in_range { IsIndex result }
    {
        self.last_index
    }

    /// The term of the last entry of the candidate's log, at most `MAX_TERM`.
    pub fn last_term(&self) -> u64
        ensures value { result ≡ self.now.last_term }
        ensures in_range { IsTerm result }
    {
        self.last_term
    }
}
