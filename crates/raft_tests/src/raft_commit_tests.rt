use raft_commit::{Moved, Peer, advance, next_batch};
use std::alloc::Global;
use std::test::Fail;
use vst_base::{Entry, MAX_TERM, Node, What};

// Entries of these terms.
fn entries(alloc: Global, terms: &[u64]) -> Result<Vec<Entry<u8>>, Fail> {
    let mut made = Vec::new(alloc);
    for term in terms {
        if *term == 0 || *term > MAX_TERM {
            return Err(Fail::from("a term of an entry"));
        }
        made.push(Entry::new(*term, What::Noop))?;
    }
    Ok(made)
}

// What a leader with a hundred entries knows of nodes that said that they have those up to these.
fn peers(alloc: Global, matched: &[u32]) -> Result<Vec<Peer>, Fail> {
    let mut made = Vec::new(alloc);
    for index in matched {
        let mut peer = Peer::new(100);
        let _ = peer.on_answer(true, *index, 100);
        made.push(peer)?;
    }
    Ok(made)
}

// How far a leader of a log of these terms, that knows this of the nodes, commits.
fn committed(
    alloc: Global,
    terms: &[u64],
    matched: &[u32],
    me: u8,
    term: u64,
    commit: u32,
) -> Result<u32, Fail> {
    let nodes = u8::try_from(matched.len()).ok().ok_or("few nodes")?;
    let me = Node::new(me, nodes).ok_or("a node")?;
    let entries = entries(alloc, terms)?;
    let peers = peers(alloc, matched)?;
    if usize::from(me.index()) >= peers.len()
        || commit as usize > entries.len()
        || entries.len() > 100
    {
        return Err(Fail::from("indexes of the log and of the nodes"));
    }
    Ok(advance(&entries, &peers, me, term, commit))
}

// Figure 8 of the Raft paper: the log of S1 in (c) and (e), which leads in term 4.
const FIGURE_8: [u64; 3] = [1, 2, 4];

#[test]
fn an_old_terms_entry_is_committed_with_one_of_the_leaders(rt: HostRuntime) -> Result<(), Fail> {
    let alloc = rt.alloc();
    for (matched, commit) in [
        ([0, 1, 1, 0, 0], 1),
        ([0, 2, 2, 0, 0], 1),
        ([0, 2, 2, 2, 2], 1),
        ([0, 3, 2, 2, 2], 1),
        ([0, 3, 3, 0, 0], 3),
    ] {
        assert!(rt; committed(alloc, &FIGURE_8, &matched, 0, 4, 1)? == commit);
    }
    Ok(())
}

// Node 0 of three leads in term 2. Its first two entries, which are of term 1, are on a majority; then so is its own.
#[test]
fn entries_of_an_old_term_wait_for_the_leaders_own(rt: HostRuntime) -> Result<(), Fail> {
    let alloc = rt.alloc();
    assert!(rt; committed(alloc, &[1, 1, 2], &[0, 2, 0], 0, 2, 0)? == 0);
    assert!(rt; committed(alloc, &[1, 1, 2], &[0, 3, 0], 0, 2, 0)? == 3);
    Ok(())
}

#[test]
fn most_nodes_decide(rt: HostRuntime) -> Result<(), Fail> {
    let alloc = rt.alloc();
    for (matched, me, commit) in [
        ([0].as_slice(), 0, 4),
        (&[0, 4], 0, 4),
        (&[0, 3], 1, 0),
        (&[3, 0, 1], 1, 3),
        (&[0, 4, 1], 1, 1),
        (&[4, 1, 0, 0], 3, 1),
        (&[1, 4, 2, 3, 0], 4, 3),
        (&[0, 4, 4, 4, 4, 3, 3, 3, 3], 0, 4),
        (&[0, 4, 4, 4, 2, 3, 3, 3, 3], 0, 3),
        (&[0, 9, 0], 0, 4),
    ] {
        assert!(rt; committed(alloc, &[1, 1, 1, 1], matched, me, 1, 0)? == commit);
    }
    Ok(())
}

#[test]
fn the_greatest_of_its_term_where_terms_fall(rt: HostRuntime) -> Result<(), Fail> {
    let alloc = rt.alloc();
    for (term, held, commit) in [
        (3, 6, 5),
        (3, 4, 2),
        (3, 1, 1),
        (5, 6, 3),
        (4, 6, 1),
        (2, 6, 6),
    ] {
        let found = committed(alloc, &[1, 3, 5, 2, 3, 2], &[0, held, 0], 0, term, 1)?;
        assert!(rt; found == commit);
    }
    Ok(())
}

#[test]
fn a_commit_never_falls(rt: HostRuntime) -> Result<(), Fail> {
    let alloc = rt.alloc();
    for commit in 0..4 {
        assert!(rt; committed(alloc, &[1, 1, 2], &[0, 2, 0], 0, 2, commit)? == commit);
    }
    assert!(rt; committed(alloc, &[], &[0, 0, 0], 0, 1, 0)? == 0);
    Ok(())
}

// Whether this is known of a node: the next index to send, and up to which it has the log.
fn is_at(peer: &Peer, next: u32, matched: u32) -> bool {
    peer.next() == next && peer.matched() == matched
}

#[test]
fn answers_of_one_node_in_turn(rt: HostRuntime) {
    let mut peer = Peer::new(10);
    assert!(rt; is_at(&peer, 11, 0));
    for (ok, index, moved, next, matched) in [
        (false, 10, Moved::Back, 10, 0),
        (false, 10, Moved::Nothing, 10, 0),
        (false, 8, Moved::Nothing, 10, 0),
        (false, 9, Moved::Back, 9, 0),
        (true, 0, Moved::Nothing, 9, 0),
        (true, 4, Moved::Raised, 5, 4),
        (true, 4, Moved::Nothing, 5, 4),
        (true, 3, Moved::Nothing, 5, 4),
        (false, 4, Moved::Nothing, 5, 4),
        (true, 11, Moved::Nothing, 5, 4),
        (true, u32::MAX, Moved::Nothing, 5, 4),
        (false, u32::MAX, Moved::Nothing, 5, 4),
        (true, 10, Moved::Raised, 11, 10),
    ] {
        let told = peer.on_answer(ok, index, 10);
        assert!(rt;
            told == moved && is_at(&peer, next, matched),
            "{ok} {index}"
        );
    }
}

#[test]
fn eight_entries_at_most_from_next_on(rt: HostRuntime) -> Result<(), Fail> {
    let log = entries(rt.alloc(), &[1, 2, 3, 4, 5, 6, 7, 8, 9, 10])?;
    if log.len() != 10 {
        return Err(Fail::from("ten entries"));
    }
    for (next, until) in [(1, 8), (2, 9), (3, 10), (4, 10), (10, 10), (11, 10)] {
        assert!(rt; next_batch(&log, next) == &log[next as usize - 1..until]);
    }
    Ok(())
}
