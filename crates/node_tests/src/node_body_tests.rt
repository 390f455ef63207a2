use crate::slot_bytes::{
    FRESH, NAME, OLD_FIRST, OLD_PUT, OLD_VOTED, PUT, VOTED, VOTED_IN_A_RECORD, WHO, old_first_and,
};
use kv_machine::KvCmd;
use lock_table::TableCmd;
use node_body::{
    Commands, Version, Who, Why, find_slot, make_base, put_body, put_record, take_body,
};
use raft_types::{Entries, Kept};
use std::alloc::{AllocError, Global};
use std::test::Fail;
use vst_base::{Node, StackId};

// What a slot holds, as far as these rows differ.
#[derive(Clone, Copy, PartialEq, Eq)]
struct Seen {
    version: Version,
    term: u64,
    voted: Option<Node>,
    left: u32,
    hidden: usize,
}

// What node 0 finds in a slot.
fn found(alloc: Global, bytes: &[u8]) -> Result<Result<Seen, Why>, AllocError> {
    match find_slot::<KvCmd>(alloc, &WHO, bytes)? {
        Ok(held) => Ok(Ok(Seen {
            version: held.version,
            term: held.journal.kept.term(),
            voted: held.journal.kept.voted(),
            left: held.journal.left,
            hidden: held.journal.hidden,
        })),
        Err(why) => Ok(Err(why)),
    }
}

// The first state in this version, and that of the vote.
fn first(version: Version, left: u32, hidden: usize) -> Seen {
    Seen {
        version,
        term: 0,
        voted: None,
        left,
        hidden,
    }
}

fn voted(version: Version, left: u32) -> Seen {
    Seen {
        version,
        term: 1,
        voted: Node::new(1, 3),
        left,
        hidden: 0,
    }
}

#[test]
fn slots_are_found(rt: HostRuntime) -> Result<(), Fail> {
    for (bytes, wanted) in [
        (OLD_FIRST.as_slice(), Ok(first(Version::One, 0, 0))),
        (&OLD_VOTED, Ok(voted(Version::One, 0))),
        (&OLD_PUT, Ok(voted(Version::One, 0))),
        (&PUT, Ok(voted(Version::Two, 1000))),
        (&FRESH, Ok(first(Version::Two, 1000, 0))),
        (&VOTED, Ok(voted(Version::Two, 1000))),
        (&VOTED_IN_A_RECORD, Ok(voted(Version::Two, 999))),
        (&OLD_VOTED[..21], Err(Why::Slot)),
    ] {
        assert!(rt; found(rt.alloc(), bytes)? == wanted);
    }
    Ok(())
}

#[test]
fn an_open_gate_wants_a_record_and_a_closed_one_hides(rt: HostRuntime) -> Result<(), Fail> {
    let alloc = rt.alloc();
    let open = old_first_and(alloc, &[1])?;
    assert!(rt; found(alloc, &open)? == Err(Why::Journal));
    let closed = old_first_and(alloc, &[2, 255, 255])?;
    assert!(rt; found(alloc, &closed)? == Ok(first(Version::One, 1000, 2)));
    Ok(())
}

// Whether a slot is refused for this to a node with these commands.
fn is_refused<C: Commands>(
    alloc: Global,
    who: &Who,
    bytes: &[u8],
    why: Why,
) -> Result<bool, AllocError> {
    match find_slot::<C>(alloc, who, bytes)? {
        Ok(_) => Ok(false),
        Err(told) => Ok(told == why),
    }
}

#[test]
fn another_name_is_told(rt: HostRuntime) -> Result<(), Fail> {
    let configured = [0, 1, 2, 3, 4, 5, 6, 7, 8, 9, 10, 11, 12, 13, 14, 0];
    let who = Who {
        name: configured,
        ..WHO
    };
    let why = Why::Name {
        kept: NAME,
        configured,
    };
    assert!(rt; is_refused::<KvCmd>(rt.alloc(), &who, &VOTED, why)?);
    Ok(())
}

#[test]
fn another_stack_is_told(rt: HostRuntime) -> Result<(), Fail> {
    let who = Who {
        stack: StackId::TableRaft,
        ..WHO
    };
    let why = Why::Stack {
        kept: 5,
        configured: 7,
    };
    assert!(rt; is_refused::<TableCmd>(rt.alloc(), &who, &VOTED, why)?);
    Ok(())
}

// While the record is written, its gate is closed.
#[test]
fn a_torn_record_is_hidden(rt: HostRuntime) -> Result<(), Fail> {
    let mut slot = { VOTED_IN_A_RECORD };
    slot[38] = 0;
    for len in 39..=slot.len() {
        let wanted = first(Version::Two, 1000, len - 39);
        assert!(rt; found(rt.alloc(), &slot[..len])? == Ok(wanted));
    }
    Ok(())
}

// While a gate is written, any byte may stand there.
#[test]
fn a_torn_gate_is_open_or_closed(rt: HostRuntime) -> Result<(), Fail> {
    let mut slot = { VOTED_IN_A_RECORD };
    for gate in 0..=255u8 {
        slot[38] = gate;
        let wanted = if gate % 2 == 0 {
            first(Version::Two, 1000, 18)
        } else {
            voted(Version::Two, 999)
        };
        assert!(rt; found(rt.alloc(), &slot)? == Ok(wanted));
    }
    Ok(())
}

#[test]
fn a_base_is_made(rt: HostRuntime) -> Result<(), Fail> {
    let alloc = rt.alloc();
    let kept = Kept::<KvCmd>::new(0, None, Entries::new(Vec::new(alloc)));
    let slot = make_base(alloc, &WHO, &kept)?;
    assert!(rt; slot.as_slice() == FRESH.as_slice());
    Ok(())
}

// A log that nodes of version 1 wrote is read, and stands in the base that it is written anew as.
#[test]
fn an_old_log_is_made_a_base(rt: HostRuntime) -> Result<(), Fail> {
    let alloc = rt.alloc();
    let Ok(held) = find_slot::<KvCmd>(alloc, &WHO, &OLD_PUT)? else {
        return Err(Fail::from("no slot"));
    };
    let slot = make_base(alloc, &WHO, &held.journal.kept)?;
    assert!(rt; slot.as_slice() == PUT.as_slice());
    Ok(())
}

#[test]
fn a_record_is_put_after_an_open_gate(rt: HostRuntime) -> Result<(), Fail> {
    let mut slot = Vec::from_slice(rt.alloc(), &FRESH[..38])?;
    slot.push(1)?;
    put_record::<KvCmd>(&mut slot, 1, Node::new(1, 3), 0, &[])?;
    slot.push(0)?;
    assert!(rt; slot.as_slice() == VOTED_IN_A_RECORD.as_slice());
    Ok(())
}

#[test]
fn a_body_is_put(rt: HostRuntime) -> Result<(), Fail> {
    let alloc = rt.alloc();
    let kept = Kept::<KvCmd>::new(1, Node::new(1, 3), Entries::new(Vec::new(alloc)));
    let mut bytes = Vec::new(alloc);
    put_body(&mut bytes, &WHO, &kept)?;
    assert!(rt; bytes.as_slice() == &VOTED[4..38]);
    Ok(())
}

#[test]
fn a_body_is_taken(rt: HostRuntime) -> Result<(), Fail> {
    let found = take_body::<KvCmd>(rt.alloc(), StackId::KvRaft, &VOTED[4..38])?;
    let (who, kept) = found.ok_or("no body")?;
    assert!(rt; who == WHO);
    assert!(rt; kept.term() == 1 && kept.voted() == Node::new(1, 3) && kept.log().is_empty());
    Ok(())
}

#[test]
fn a_body_is_of_the_stack_that_it_names(rt: HostRuntime) -> Result<(), Fail> {
    let alloc = rt.alloc();
    let who = Who {
        stack: StackId::KvPb,
        ..WHO
    };
    let kept = Kept::<KvCmd>::new(1, Node::new(1, 3), Entries::new(Vec::new(alloc)));
    let mut bytes = Vec::new(alloc);
    put_body(&mut bytes, &who, &kept)?;
    assert!(rt; bytes[2] == 3, "the byte of the stack");
    assert!(rt; &bytes[..2] == &VOTED[4..6] && &bytes[3..] == &VOTED[7..38]);
    let (found, _kept) = take_body::<KvCmd>(alloc, StackId::KvPb, &bytes)?.ok_or("no body")?;
    assert!(rt; found == who);
    Ok(())
}

// Whether no body of the stack with these commands stands there.
fn has_no_body<C: Commands>(
    alloc: Global,
    stack: StackId,
    bytes: &[u8],
) -> Result<bool, AllocError> {
    Ok(take_body::<C>(alloc, stack, bytes)?.is_none())
}

#[test]
fn other_bodies_are_not_taken(rt: HostRuntime) -> Result<(), Fail> {
    let alloc = rt.alloc();
    assert!(rt;
        has_no_body::<TableCmd>(alloc, StackId::TableRaft, &VOTED[4..38])?,
        "of another stack"
    );
    assert!(rt;
        has_no_body::<KvCmd>(alloc, StackId::KvPb, &VOTED[4..38])?,
        "of another stack with the same commands"
    );
    assert!(rt;
        has_no_body::<KvCmd>(alloc, StackId::KvRaft, &OLD_VOTED[4..])?,
        "of version 1"
    );
    Ok(())
}
