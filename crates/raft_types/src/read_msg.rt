ghost use Rattle.std.specs.Prelude.{◌≡◌, ◌≤◌};
ghost use Rattle.raft_types.specs.Rounds.{greatest_round};

use crate::RaftMsg;
use std::marker::Model;

/// A message of Raft with a round: of a leader's entries its own, and of an answer to them the one that it acknowledges. A round is at
/// most `MAX_ROUND`, and 0 with a vote and with a candidate's question. Contracts see the record of both.
#[derive(Debug, Drop)]
pub struct ReadMsg<C> {
    raft: RaftMsg<C>,
    round: u64,
}

impl<C> Model for ReadMsg<C> {
    ghost use Rattle.std.specs.Prelude.{◌≤◌};
    ghost use Rattle.raft_types.specs.Rounds.{ReadMsg as Message, greatest_round};

    ghost Value = { Message C };

    ghost view = { λ m. record { raft = m.raft; round = m.round } };

    ghost invariant = { λ m. m.round ≤ greatest_round m.raft };

    ghost inverse = { λ v. record { raft = v.raft; round = v.round } };
}

impl<C> ReadMsg<C> {
    /// This message with this round.
    pub fn new(raft: RaftMsg<C>, round: u64) -> Self
        requires { round ≤ greatest_round raft }
        ensures { result ≡ record { raft = raft; round = round } }
    {
        ReadMsg { raft, round }
    }

    /// The message without its round.
    pub fn raft(&self) -> &RaftMsg<C>
        ensures { result.now ≡ self.now.raft }
    {
        &self.raft
    }

    /// Its round.
    pub fn round(&self) -> u64
        ensures value { result ≡ self.now.round }
        ensures in_range { result ≤ greatest_round self.now.raft }
    {
        self.round
    }
}
