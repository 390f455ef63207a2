ghost use Rattle.std.specs.Prelude.{◌≡◌, ◌<◌, ◌≤◌, None, nat_lt, IsTrue, IsFalse};
ghost use Rattle.raft_election.specs.Ballots.{counted, grants, kept, learned, may_start, started, voted_for};
ghost use Rattle.vst_base.specs.declared.entry.TheConstants as terms;

use crate::votes::with_vote;
use std::marker::Model;
use vst_base::{MAX_TERM, Node};

/// What a node knows of elections (the Raft paper, Figure 2): its term, from 0 to `MAX_TERM`, for whom it
/// voted in it, and the votes that it counted as a candidate, node n being the bit of value 2^n. Contracts
/// see the record of these.
#[derive(Clone, Copy, Debug, PartialEq, Eq)]
pub struct Ballot {
    term: u64,
    voted: Option<Node>,
    votes: u16,
}

impl Model for Ballot {
    ghost use Rattle.std.specs.Prelude.{◌≤◌};
    ghost use Rattle.raft_election.specs.Ballots.{BallotView};
    ghost use Rattle.vst_base.specs.declared.entry.TheConstants.{MAX_TERM};

    ghost Value = { BallotView };

    ghost view = { λ b. record { term = b.term; voted = b.voted; votes = b.votes } };

    ghost invariant = { λ b. b.term ≤ MAX_TERM };

    ghost inverse = { λ v. record { term = v.term; voted = v.voted; votes = v.votes } };
}

impl Ballot {
    /// A node that starts for the first time: term 0, before the first election.
    pub fn new() -> Self
        ensures { result ≡ kept 0 None }
    {
        Ballot {
            term: 0,
            voted: None,
            votes: 0,
        }
    }

    /// A node that starts again: its term and its vote are kept, and the votes that it counted are not
    /// (Figure 2, persistent state).
    pub fn kept(term: u64, voted: Option<Node>) -> Self
        requires { term ≤ terms.MAX_TERM }
        ensures { result ≡ kept term voted }
    {
        Ballot {
            term,
            voted,
            votes: 0,
        }
    }

    /// Its term.
    pub fn term(&self) -> u64
        ensures value { result ≡ self.now.term }
        ensures in_range { result ≤ terms.MAX_TERM }
    {
        self.term
    }

    /// For whom it voted in its term.
    pub fn voted(&self) -> Option<Node>
        ensures { result ≡ self.now.voted }
    {
        self.voted
    }

    /// The votes that it counted, node n being the bit of value 2^n.
    pub fn votes(&self) -> u16
        ensures { result ≡ self.now.votes }
    {
        self.votes
    }

    /// Becomes a candidate of the next term, which has its own vote and no other (section 5.2). `false`
    /// at the greatest term, where nothing changes.
    pub fn start(&mut self, me: Node) -> bool
        requires { me < 16 }
        ensures answer { result ≡ may_start self.old }
        ensures starts { IsTrue result → self.new ≡ started me self.old }
        ensures stays { IsFalse result → self.new ≡ self.old }
    {
        if self.term == MAX_TERM {
            return false;
        }
        self.term += 1;
        self.voted = Some(me);
        self.votes = with_vote(0, me);
        true
    }

    /// Learns of a term, and tells whether it was greater: then it goes on to it, where it has not voted
    /// (section 5.1).
    pub fn learn(&mut self, term: u64) -> bool
        requires { term ≤ terms.MAX_TERM }
        ensures answer { result ≡ nat_lt self.old.term term }
        ensures learns { IsTrue result → self.new ≡ learned term self.old }
        ensures stays { IsFalse result → self.new ≡ self.old }
    {
        if term <= self.term {
            return false;
        }
        self.term = term;
        self.voted = None;
        true
    }

    /// Answers a candidate that asks for the vote in a term, and remembers a vote that it grants. It is
    /// granted in the ballot's own term alone, where no other candidate has it, to one whose log is up to
    /// date (sections 5.2 and 5.4.1).
    pub fn on_request(&mut self, term: u64, from: Node, up_to_date: bool) -> bool
        ensures answer { result ≡ grants self.old term from up_to_date }
        ensures votes { IsTrue result → self.new ≡ voted_for from self.old }
        ensures stays { IsFalse result → self.new ≡ self.old }
    {
        let free = match self.voted {
            None => true,
            Some(node) => node == from,
        };
        if !(self.term == term && free && up_to_date) {
            return false;
        }
        self.voted = Some(from);
        true
    }

    /// Counts a vote that was granted in its term. A vote that comes again counts once.
    pub fn on_grant(&mut self, from: Node)
        requires { from < 16 }
        ensures { self.new ≡ counted from self.old }
    {
        self.votes = with_vote(self.votes, from);
    }
}
