ghost use Rattle.std.specs.Prelude.{◌≡◌};
ghost use Rattle.vst_base.specs.Entries.{IsElectionTerm};
ghost use Rattle.raft_types.specs.Terms.{term_of};

use crate::{Append, Appended, RequestVote, Vote};

/// A message between the nodes of a cluster, over commands of a machine.
#[derive(Debug, Drop)]
pub enum RaftMsg<C> {
    /// A candidate asks for a vote.
    RequestVote(RequestVote),
    /// The answer to it.
    Vote(Vote),
    /// A leader sends entries.
    Append(Append<C>),
    /// The answer to it.
    Appended(Appended),
}

impl<C> RaftMsg<C> {
    /// The term of the node that sent it.
    pub fn term(&self) -> u64
        ensures value { result ≡ term_of self.now }
        ensures in_range { IsElectionTerm result }
    {
        match self {
            RaftMsg::RequestVote(request) => request.term(),
            RaftMsg::Vote(vote) => vote.term(),
            RaftMsg::Append(append) => append.term(),
            RaftMsg::Appended(appended) => appended.term(),
        }
    }
}
