ghost use Rattle.std.specs.Prelude.{◌≡◌, ℕ, ◌<◌, ◌≤◌, ◌^◌, length, IsTrue, IsFalse};
ghost use Rattle.vst_base.specs.Elections as elections;
ghost use Rattle.vst_base.specs.Elections.{is_majority};
ghost use Rattle.raft_commit.specs.Peers.{matched_of};

use crate::Peer;
use vst_base::{Entry, Node};

// Whether most nodes have the leader's log up to an index.
fn is_held(peers: &[Peer], me: Node, index: u32) -> bool
    ensures { result ≡ is_majority (length peers.now) (elections.holders me (matched_of peers.now) index) }
{
    let mut count = 0;
    for (n, peer) in peers.iter().enumerate() {
        if n == usize::from(me.index()) || index <= peer.matched() {
            count += 1;
        }
    }
    2 * count > peers.len()
}

// The greatest index of a log of this length up to which most nodes have it.
fn held(peers: &[Peer], me: Node, len: u32) -> u32
    requires { me < length peers.now }
    ensures most { IsTrue (is_majority (length peers.now) (elections.holders me (matched_of peers.now) result)) }
    ensures in_the_log { result ≤ len }
    ensures greatest { (k : ℕ) → result < k → k ≤ len → IsFalse
        (is_majority (length peers.now) (elections.holders me (matched_of peers.now) k)) }
{
    if is_held(peers, me, len) {
        return len;
    }
    let mut most: u32 = 0;
    for peer in peers {
        let index = peer.matched();
        if is_held(peers, me, index) {
            most = most.max(index);
        }
    }
    most
}

/// How far a leader in this term may commit: the greatest index past its commit that most nodes have, the
/// leader among them, and whose entry is of its own term, or its commit where there is none (the Raft
/// paper, sections 5.3 and 5.4.2). Entries of earlier terms are committed with one of its own, and never by
/// themselves. `peers` has what it knows of each node, in the nodes' order; its own place counts for nothing.
///
/// It looks at the entries from the greatest index that most nodes have down to the one that it tells.
pub fn advance<C>(entries: &[Entry<C>], peers: &[Peer], me: Node, term: u64, commit: u32) -> u32
    requires len { length entries.now < 2 ^ 32 }
    requires me { me < length peers.now }
    requires commit { commit ≤ length entries.now }
    ensures commit { result ≡ elections.advance (length peers.now) me (matched_of peers.now) entries.now term commit (length entries.now) }
    ensures not_back { commit ≤ result }
    ensures in_the_log { result ≤ length entries.now }
    ensures allowed { commit < result → IsTrue (elections.may_commit (length peers.now) me (matched_of peers.now) entries.now term commit
        result) }
    ensures greatest { (k : ℕ) → result < k → k ≤ length entries.now
        → IsFalse (elections.may_commit (length peers.now) me (matched_of peers.now) entries.now term commit k) }
{
    let mut index = held(peers, me, entries.len() as u32);
    while index > commit && entries[index as usize - 1].term() != term {
        index -= 1;
    }
    index.max(commit)
}
