ghost use Rattle.std.specs.Prelude.{◌≡◌, length};
ghost use Rattle.raft_types.specs.Messages.{IsIndex, IsTerm};

use crate::Entries;
use std::marker::Model;
use vst_base::{Entry, Node};

/// What a node keeps when it stops: its term, from 0 to `MAX_TERM`, for whom it voted in it, which may be a
/// node of any number, and its log. Contracts see the record of these.
#[derive(Debug, Drop)]
pub struct Kept<C> {
    term: u64,
    voted: Option<Node>,
    log: Entries<C>,
}

impl<C> Model for Kept<C> {
    ghost use Rattle.raft_types.specs.Messages.{KeptView};
    ghost use Rattle.raft_types.specs.Messages.{IsTerm};

    ghost Value = { KeptView C };

    ghost view = { λ k. record { term = k.term; voted = k.voted; log = k.log } };

    ghost invariant = { λ k. IsTerm k.term };

    ghost inverse = { λ v. record { term = v.term; voted = v.voted; log = v.log } };
}

impl<C> Kept<C> {
    /// What a node of this term, vote and log keeps.
    pub fn new(term: u64, voted: Option<Node>, log: Entries<C>) -> Self
        requires { IsTerm term }
        ensures { result ≡ record { term = term; voted = voted; log = log } }
    {
        Kept { term, voted, log }
    }

    /// The node's term, 0 before the first election.
    pub fn term(&self) -> u64
        ensures value { result ≡ self.now.term }
        ensures in_range { IsTerm result }
    {
        self.term
    }

    /// For whom it voted in its term.
    pub fn voted(&self) -> Option<Node>
        ensures { result ≡ self.now.voted }
    {
        self.voted
    }

    /// The entries of its log, from index 1 on.
    pub fn log(&self) -> &[Entry<C>]
        ensures value { result.now ≡ self.now.log }
        ensures in_range { IsIndex (length result.now) }
    {
        self.log.as_slice()
    }

    /// Gives it up for its log.
    pub fn into_log(self) -> Entries<C>
        ensures value { result ≡ self.log }
        ensures in_range { IsIndex (length result) }
    {
        self.log
    }
}
