ghost use Rattle.std.specs.Prelude.{◌≡◌, ◌≤◌};
ghost use Rattle.handler_trait.specs.declared.handlers.TheConstants.{SPENT_MAX};
ghost use Rattle.raft_reads.specs.Reads.{round_of};
ghost use Rattle.raft_types.specs.Rounds.{greatest_round};

use raft_types::RaftMsg;

/// What the rounds of a node's packets depend on: the node's own round, and the term and round of the message that it handles,
/// both 0 where it handles none.
#[derive(Clone, Copy)]
pub(crate) struct Rounds {
    pub(crate) own: u64,
    pub(crate) term: u64,
    pub(crate) heard: u64,
}

impl Rounds {
    /// The round of a message that the node sends.
    pub(crate) fn of<C>(&self, message: &RaftMsg<C>) -> u64
        requires own { self.now.own ≤ SPENT_MAX }
        requires heard { self.now.heard ≤ SPENT_MAX }
        ensures value { result ≡ round_of self.now.own self.now.term self.now.heard message.now }
        ensures in_range { result ≤ greatest_round message.now }
    {
        match message {
            RaftMsg::RequestVote(_) | RaftMsg::Vote(_) => 0,
            RaftMsg::Append(_) => self.own,
            RaftMsg::Appended(appended) if appended.term() == self.term => self.heard,
            RaftMsg::Appended(_) => 0,
        }
    }
}
