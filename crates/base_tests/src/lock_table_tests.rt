use crate::machines::{answer, text, token};
use lock_table::{TableCmd, TableMachine, TableState};
use std::alloc::Global;
use std::test::Fail;
use vst_base::{Machine, Queries};

fn acquire(alloc: Global, name: &[u8], owner: &[u8]) -> Result<TableCmd, Fail> {
    Ok(TableCmd::Acquire(token(alloc, name)?, token(alloc, owner)?))
}

fn release(alloc: Global, name: &[u8], owner: &[u8]) -> Result<TableCmd, Fail> {
    Ok(TableCmd::Release(token(alloc, name)?, token(alloc, owner)?))
}

fn holder(alloc: Global, name: &[u8]) -> Result<TableCmd, Fail> {
    Ok(TableCmd::Holder(token(alloc, name)?))
}

// The commands of a short run, by their place.
fn command(alloc: Global, place: u8) -> Result<TableCmd, Fail> {
    match place {
        0 => acquire(alloc, b"l", b"bob"),
        1 => acquire(alloc, b"m", b"al"),
        2 => acquire(alloc, b"l", b"al"),
        3 => release(alloc, b"l", b"bob"),
        4 => holder(alloc, b"l"),
        _ => holder(alloc, b"m"),
    }
}

// Whether the machine answers a copy of a command with this name, this holder of it, and yes or no.
fn tells(
    alloc: Global,
    state: &mut TableState,
    place: u8,
    name: &[u8],
    holder: Option<&[u8]>,
    yes: bool,
) -> Result<bool, Fail> {
    let told = answer(alloc, &TableMachine, state, &command(alloc, place)?)?;
    let same = text(&told.holder) == holder && told.yes == yes;
    Ok(same && told.name.as_bytes() == name)
}

#[test]
fn commands_are_answered_in_turn(rt: HostRuntime) -> Result<(), Fail> {
    let alloc = rt.alloc();
    let [l, m] = [b"l".as_slice(), b"m".as_slice()];
    let [bob, al] = [Some(b"bob".as_slice()), Some(b"al".as_slice())];
    let mut state = TableMachine.init(alloc)?;
    for (place, name, holder, yes) in [
        (0, l, bob, true),
        (1, m, al, true),
        (2, l, bob, false),
        (3, l, None, true),
        (4, l, None, false),
        (5, m, al, true),
    ] {
        assert!(rt;
            tells(alloc, &mut state, place, name, holder, yes)?,
            "command {place}"
        );
    }
    Ok(())
}

#[test]
fn a_question_alone_reads(rt: HostRuntime) -> Result<(), Fail> {
    for (place, reads) in [(0, false), (3, false), (4, true)] {
        assert!(rt;
            TableMachine.is_read(&command(rt.alloc(), place)?) == reads,
            "command {place}"
        );
    }
    Ok(())
}
