ghost use Rattle.std.specs.Prelude.{◌≡◌, ◌+◌, ◌<◌, ◌≤◌};
ghost use Rattle.raft_commit.specs.Peers.{moved, new_peer, peer_after};

use std::marker::Model;

/// What a leader knows of another node's log: the index of the next entry to send to it, and up to which
/// index its log is known to be the leader's, which is below that (the Raft paper, Figure 2, nextIndex and
/// matchIndex). Contracts see the record of these.
#[derive(Clone, Copy, Debug, PartialEq, Eq)]
pub struct Peer {
    next: u32,
    matched: u32,
}

impl Model for Peer {
    ghost use Rattle.std.specs.Prelude.{◌<◌};
    ghost use Rattle.raft_commit.specs.Peers.{PeerView};

    ghost Value = { PeerView };

    ghost view = { λ p. record { next = p.next; matched = p.matched } };

    ghost invariant = { λ p. p.matched < p.next };

    ghost inverse = { λ v. record { next = v.next; matched = v.matched } };
}

/// How an answer moves what a leader knows of a node.
#[derive(Clone, Copy, Debug, PartialEq, Eq)]
pub enum Moved {
    /// The node has more of the leader's log than was known.
    Raised,
    /// The node is to be sent entries from one index earlier on.
    Back,
    /// Nothing moves: the answer is an old one, or no answer to this log.
    Nothing,
}

impl Peer {
    /// A node of which a new leader, whose log has this length, knows nothing: its log is sent from its end
    /// on (Figure 2, reinitialized after election).
    pub fn new(len: u32) -> Self
        requires { len < u32.MAX }
        ensures { result ≡ new_peer len }
    {
        Peer {
            next: len + 1,
            matched: 0,
        }
    }

    /// The index of the next entry to send to the node.
    pub fn next(&self) -> u32
        ensures value { result ≡ self.now.next }
        ensures past_matched { self.now.matched < result }
    {
        self.next
    }

    /// Up to which index the node's log is known to be the leader's.
    pub fn matched(&self) -> u32
        ensures value { result ≡ self.now.matched }
        ensures below_next { result < self.now.next }
    {
        self.matched
    }

    /// Takes the node's answer to the entries that the leader, whose log has this length, sent it (section
    /// 5.3): yes, its log is now the leader's up to the index, or no, it has not the leader's entry there.
    /// An answer may be old or forged. So a yes tells something only of an index past the one known and in
    /// the log, and a no only of the one right before next, past the one known: the node is then sent the
    /// entries from that index on.
    pub fn on_answer(&mut self, ok: bool, index: u32, len: u32) -> Moved
        requires { len < u32.MAX }
        ensures answer { result ≡ moved self.old ok index len }
        ensures peer { self.new ≡ peer_after self.old index result }
        ensures in_order { self.new.matched < self.new.next }
        ensures in_the_log { self.old.next ≤ len + 1 → self.new.next ≤ len + 1 }
    {
        if ok && self.matched < index && index <= len {
            *self = Peer {
                next: index + 1,
                matched: index,
            };
            Moved::Raised
        } else if !ok && index == self.next - 1 && self.matched < index {
            self.next = index;
            Moved::Back
        } else {
            Moved::Nothing
        }
    }
}
