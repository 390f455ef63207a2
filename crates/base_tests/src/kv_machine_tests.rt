use crate::machines::{answer, text, token};
use kv_machine::{KvCmd, KvMachine, KvState};
use std::alloc::Global;
use std::test::Fail;
use vst_base::{Machine, Queries};

fn put(alloc: Global, k: &[u8], v: &[u8]) -> Result<KvCmd, Fail> {
    Ok(KvCmd::Put(token(alloc, k)?, token(alloc, v)?))
}

fn cas(alloc: Global, k: &[u8], expected: Option<&[u8]>, v: &[u8]) -> Result<KvCmd, Fail> {
    let expected = match expected {
        Some(text) => Some(token(alloc, text)?),
        None => None,
    };
    Ok(KvCmd::Cas(token(alloc, k)?, expected, token(alloc, v)?))
}

fn cad(alloc: Global, k: &[u8], v: &[u8]) -> Result<KvCmd, Fail> {
    Ok(KvCmd::Cad(token(alloc, k)?, token(alloc, v)?))
}

// The commands of a short run, by their place.
fn command(alloc: Global, place: u8) -> Result<KvCmd, Fail> {
    match place {
        0 => cas(alloc, b"a", None, b"x"),
        1 => put(alloc, b"b", b"y"),
        2 => cas(alloc, b"a", Some(b"y"), b"z"),
        3 => cad(alloc, b"a", b"x"),
        4 => Ok(KvCmd::Del(token(alloc, b"a")?)),
        _ => Ok(KvCmd::Get(token(alloc, b"b")?)),
    }
}

// Whether the machine answers a copy of a command with this key, and these values of it.
fn tells(
    alloc: Global,
    state: &mut KvState,
    place: u8,
    key: &[u8],
    after: Option<&[u8]>,
    before: Option<&[u8]>,
) -> Result<bool, Fail> {
    let told = answer(alloc, &KvMachine, state, &command(alloc, place)?)?;
    let same = text(&told.after) == after && text(&told.before) == before;
    Ok(same && told.key.as_bytes() == key)
}

#[test]
fn commands_are_answered_in_turn(rt: HostRuntime) -> Result<(), Fail> {
    let alloc = rt.alloc();
    let [a, b] = [b"a".as_slice(), b"b".as_slice()];
    let [x, y] = [Some(b"x".as_slice()), Some(b"y".as_slice())];
    let mut state = KvMachine.init(alloc)?;
    for (place, key, after, before) in [
        (0, a, x, None),
        (1, b, y, None),
        (2, a, x, x),
        (3, a, None, x),
        (4, a, None, None),
        (5, b, y, y),
    ] {
        assert!(rt;
            tells(alloc, &mut state, place, key, after, before)?,
            "command {place}"
        );
    }
    Ok(())
}

#[test]
fn a_get_alone_reads(rt: HostRuntime) -> Result<(), Fail> {
    for (place, reads) in [
        (0, false),
        (1, false),
        (2, false),
        (3, false),
        (4, false),
        (5, true),
    ] {
        assert!(rt;
            KvMachine.is_read(&command(rt.alloc(), place)?) == reads,
            "command {place}"
        );
    }
    Ok(())
}
