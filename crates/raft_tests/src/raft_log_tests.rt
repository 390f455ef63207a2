use super::requests::asked;
use raft_log::{Accept, Log};
use raft_types::MAX_INDEX;
use std::alloc::{AllocError, Global};
use std::test::Fail;
use vst_base::{Counter, Entry, MAX_TERM, Machine, What};

// The logs of Figure 7 of the Raft paper, by their terms: the new leader's, and the followers' a to f.
const LEADER: [u64; 10] = [1, 1, 1, 4, 4, 5, 5, 6, 6, 6];

const A: [u64; 9] = [1, 1, 1, 4, 4, 5, 5, 6, 6];

const B: [u64; 4] = [1, 1, 1, 4];

const C: [u64; 11] = [1, 1, 1, 4, 4, 5, 5, 6, 6, 6, 6];

const D: [u64; 12] = [1, 1, 1, 4, 4, 5, 5, 6, 6, 6, 7, 7];

const E: [u64; 7] = [1, 1, 1, 4, 4, 4, 4];

const F: [u64; 11] = [1, 1, 1, 2, 2, 2, 3, 3, 3, 3, 3];

// Entries of these terms. The commands of those up to `kept` are 0, of the others 9.
fn entries(alloc: Global, terms: &[u64], kept: usize) -> Result<Vec<Entry<u8>>, Fail> {
    let mut made = Vec::new(alloc);
    for term in terms {
        if *term == 0 || *term > MAX_TERM {
            return Err(Fail::from("a term of an entry"));
        }
        let cmd = if made.len() < kept { 0 } else { 9 };
        made.push(Entry::new(*term, asked(7, 1, cmd)))?;
    }
    Ok(made)
}

// A log of these terms, whose commands are 0.
fn log(alloc: Global, terms: &[u64]) -> Result<Log<u8>, Fail> {
    let made = entries(alloc, terms, terms.len())?;
    if made.len() > MAX_INDEX as usize {
        return Err(Fail::from("a short log"));
    }
    Ok(Log::new(made))
}

fn accept<M: Machine>(
    alloc: Global,
    machine: &M,
    log: &mut Log<M::Cmd>,
    prev: u32,
    new: &[Entry<M::Cmd>],
    commit: u32,
) -> Result<Accept, Fail> {
    let (last, _) = log.last();
    if prev > last || commit > last || new.len() > (MAX_INDEX - last) as usize {
        return Err(Fail::from("indexes of the log"));
    }
    Ok(log.accept(alloc, machine, prev, new, commit)?)
}

// Whether the log has entries of these terms, with the command 0 up to `kept` and 9 after that.
fn is_of(alloc: Global, log: &Log<u8>, terms: &[u64], kept: usize) -> Result<bool, Fail> {
    let wanted = entries(alloc, terms, kept)?;
    Ok(log.entries() == wanted.as_slice())
}

// A leader's log: an entry of the first term, and one of its own.
fn leaders(alloc: Global) -> Result<Log<u8>, Fail> {
    let mut leader = log(alloc, &[1])?;
    if leader.last().0 == MAX_INDEX {
        return Err(Fail::from("a short log"));
    }
    leader.push(Entry::new(2, What::Noop))?;
    Ok(leader)
}

// Whether the last entry is a no-op.
fn ends_in_a_noop(log: &Log<u8>) -> bool {
    match log.entries().last() {
        Some(entry) => *entry.what() == What::Noop,
        None => false,
    }
}

// A leader adds an entry of its own to its log, and a follower takes both from it.
#[test]
fn a_leaders_own_entry_is_taken_with_the_others(rt: HostRuntime) -> Result<(), Fail> {
    let alloc = rt.alloc();
    let leader = leaders(alloc)?;
    let mut follower = Log::new(Vec::new(alloc));
    let taken = accept(alloc, &Counter, &mut follower, 0, leader.entries(), 0)?;
    assert!(rt; taken == Accept::Taken(2));
    assert!(rt; follower.entries() == leader.entries());
    assert!(rt; ends_in_a_noop(&follower));
    Ok(())
}

// What the log answers to entries of these terms after the index `prev`.
fn answer(
    alloc: Global,
    log: &mut Log<u8>,
    prev: u32,
    terms: &[u64],
    commit: u32,
) -> Result<Accept, Fail> {
    let sent = entries(alloc, terms, 0)?;
    accept(alloc, &Counter, log, prev, &sent, commit)
}

// What a follower of these terms answers to all of the leader's entries after the index `prev`, and its
// log afterwards.
fn follow(alloc: Global, terms: &[u64], prev: u32, commit: u32) -> Result<(Accept, Log<u8>), Fail> {
    let sent = LEADER.get(prev as usize..).ok_or("an index")?;
    let mut follower = log(alloc, terms)?;
    let told = answer(alloc, &mut follower, prev, sent, commit)?;
    Ok((told, follower))
}

#[test]
fn the_followers_of_figure_7_take_the_leaders_entries(rt: HostRuntime) -> Result<(), Fail> {
    for (old, prev, kept, new) in [
        (A.as_slice(), 9, 9, LEADER.as_slice()),
        (B.as_slice(), 4, 4, LEADER.as_slice()),
        (B.as_slice(), 0, 4, LEADER.as_slice()),
        (C.as_slice(), 7, 11, C.as_slice()),
        (D.as_slice(), 0, 12, D.as_slice()),
        (E.as_slice(), 5, 5, LEADER.as_slice()),
        (E.as_slice(), 1, 5, LEADER.as_slice()),
        (F.as_slice(), 3, 3, LEADER.as_slice()),
    ] {
        let (told, follower) = follow(rt.alloc(), old, prev, 0)?;
        assert!(rt; told == Accept::Taken(10));
        assert!(rt; is_of(rt.alloc(), &follower, new, kept)?);
    }
    Ok(())
}

#[test]
fn an_old_or_an_empty_message_cuts_nothing(rt: HostRuntime) -> Result<(), Fail> {
    let alloc = rt.alloc();
    let mut follower = log(alloc, &C)?;
    for (prev, terms, index) in [(2, &LEADER[2..5], 5), (4, &LEADER[..0], 4)] {
        let told = answer(alloc, &mut follower, prev, terms, 11)?;
        assert!(rt; told == Accept::Taken(index));
    }
    assert!(rt; is_of(alloc, &follower, &C, 11)?);
    Ok(())
}

#[test]
fn a_conflict_up_to_commit_is_refused(rt: HostRuntime) -> Result<(), Fail> {
    for (old, prev, commit, answer, kept, new) in [
        (E.as_slice(), 5, 7, Accept::Below(6), 7, E.as_slice()),
        (E.as_slice(), 5, 6, Accept::Below(6), 7, E.as_slice()),
        (E.as_slice(), 0, 6, Accept::Below(6), 7, E.as_slice()),
        (F.as_slice(), 3, 11, Accept::Below(4), 11, F.as_slice()),
        (E.as_slice(), 5, 5, Accept::Taken(10), 5, LEADER.as_slice()),
    ] {
        let (told, follower) = follow(rt.alloc(), old, prev, commit)?;
        assert!(rt; told == answer);
        assert!(rt; is_of(rt.alloc(), &follower, new, kept)?);
    }
    Ok(())
}

#[test]
fn entries_are_taken_one_by_one(rt: HostRuntime) -> Result<(), Fail> {
    let alloc = rt.alloc();
    let mut follower = log(alloc, &[])?;
    for (prev, term) in [(0, 1), (1, 1), (2, 3)] {
        let told = answer(alloc, &mut follower, prev, &[term], prev)?;
        assert!(rt; told == Accept::Taken(prev + 1));
    }
    assert!(rt; is_of(alloc, &follower, &[1, 1, 3], 0)?);
    assert!(rt; follower.into_entries().len() == 3);
    Ok(())
}

#[test]
fn a_log_is_asked_by_index_and_term(rt: HostRuntime) -> Result<(), Fail> {
    let f = log(rt.alloc(), &F)?;
    assert!(rt; f.last() == (11, 3));
    assert!(rt; f.term_at(4) == Some(2));
    assert!(rt; f.matches(6, 2));
    assert!(rt; f.up_to_date(10, 6));
    Ok(())
}
