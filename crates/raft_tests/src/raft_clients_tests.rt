use super::requests::asked;
use raft_clients::{Sessions, apply_entry, executed};
use std::alloc::{AllocError, Global};
use std::test::Fail;
use vst_base::{ClientId, Counter, Entry, Machine, What};

// What the machine and the sessions answer, through the bounds.
fn apply<M: Machine>(
    alloc: Global,
    machine: &M,
    state: &mut M::State,
    sessions: &mut Sessions<M::Out>,
    entry: &Entry<M::Cmd>,
) -> Result<Option<M::Out>, AllocError> {
    apply_entry(alloc, machine, state, sessions, entry)
}

#[test]
fn a_request_is_executed_once_and_answered_again(rt: HostRuntime) -> Result<(), Fail> {
    let alloc = rt.alloc();
    let mut state = Counter.init(alloc)?;
    let mut sessions = Sessions::new(alloc);
    for (client, request, cmd, output, sum) in [
        (7, 1, 3, Some(0), 3),
        (9, 1, 4, Some(3), 7),
        (7, 1, 3, Some(0), 7),
        (7, 1, 9, Some(0), 7),
        (7, 0, 3, None, 7),
        (9, u64::MAX, 5, Some(7), 12),
        (9, 2, 5, None, 12),
        (9, u64::MAX, 5, Some(7), 12),
        (7, 6, 1, Some(12), 13),
        (8, 0, 2, Some(13), 15),
        (8, 0, 2, Some(13), 15),
    ] {
        let entry = Entry::new(1, asked(client, request, cmd));
        let answer = apply(alloc, &Counter, &mut state, &mut sessions, &entry)?;
        assert!(rt; answer == output && state == sum, "{client} {request}");
    }
    Ok(())
}

#[test]
fn a_noop_does_nothing(rt: HostRuntime) -> Result<(), Fail> {
    let alloc = rt.alloc();
    let mut state = 5;
    let mut sessions = Sessions::new(alloc);
    let noop = Entry::new(1, What::Noop);
    let answer = apply(alloc, &Counter, &mut state, &mut sessions, &noop)?;
    assert!(rt; answer.is_none() && state == 5);
    assert!(rt; sessions.get(ClientId::new(0)).is_none());
    Ok(())
}

// The sessions of so many clients, of which each asked once, for 1 and by its own number.
fn sessions_of(alloc: Global, clients: u64) -> Result<Sessions<u8>, AllocError> {
    let mut state = 0;
    let mut sessions = Sessions::new(alloc);
    for client in 0..clients {
        let entry = Entry::new(1, asked(client, client, 1));
        apply(alloc, &Counter, &mut state, &mut sessions, &entry)?;
    }
    Ok(sessions)
}

#[test]
fn each_client_has_its_own_session(rt: HostRuntime) -> Result<(), Fail> {
    let sessions = sessions_of(rt.alloc(), 200)?;
    for client in 0..200 {
        let session = sessions.get(ClientId::new(client)).ok_or("a session")?;
        assert!(rt; session.request.number() == client);
        assert!(rt; u64::from(session.output) == client);
    }
    assert!(rt; sessions.get(ClientId::new(200)).is_none());
    Ok(())
}

// The requests, of a client and a number each. A no-op stands before each.
fn after_noops(alloc: Global, requests: &[(u64, u64)]) -> Result<Vec<Entry<u8>>, AllocError> {
    let mut entries = Vec::new(alloc);
    for (client, request) in requests {
        entries.push(Entry::new(1, What::Noop))?;
        entries.push(Entry::new(1, asked(*client, *request, 0)))?;
    }
    Ok(entries)
}

// Whether these are the places of the requests that are executed.
fn are_executed(
    alloc: Global,
    requests: &[(u64, u64)],
    places: &[usize],
) -> Result<bool, AllocError> {
    let entries = after_noops(alloc, requests)?;
    Ok(executed(alloc, &entries)?.as_slice() == places)
}

#[test]
fn requests_over_all_earlier_ones_are_executed(rt: HostRuntime) -> Result<(), Fail> {
    for (requests, places) in [
        ([].as_slice(), [].as_slice()),
        (&[(7, 0), (7, 0)], &[1]),
        (&[(7, 1), (9, 1), (7, 1), (9, 2)], &[1, 3, 7]),
        (&[(7, 5), (7, 3), (7, 4), (7, 6)], &[1, 7]),
        (
            &[(0, 0), (1, 0), (0, u64::MAX), (0, 1), (1, 1)],
            &[1, 3, 5, 9],
        ),
    ] {
        assert!(rt; are_executed(rt.alloc(), requests, places)?, "{requests:?}");
    }
    Ok(())
}
