use crate::machines::{answer, token};
use std::alloc::{AllocError, Global};
use std::collections::HashSet;
use std::hash::Hash;
use std::test::Fail;
use vst_base::{Counter, Key, Machine, Step, StepKind};

// The last output of a command that comes twice, and the state after.
fn twice<M: Machine>(
    alloc: Global,
    machine: &M,
    cmd: &M::Cmd,
) -> Result<(M::Out, M::State), AllocError> {
    let mut state = machine.init(alloc)?;
    machine.apply(alloc, &mut state, cmd)?;
    let out = answer(alloc, machine, &mut state, cmd)?;
    Ok((out, state))
}

#[test]
fn a_machine_answers_from_the_state_before(rt: HostRuntime) -> Result<(), Fail> {
    assert!(rt; twice(rt.alloc(), &Counter, &3)? == (3, 6));
    Ok(())
}

fn is_of_kind(step: Step<u8>, kind: StepKind) -> bool {
    step.kind() == kind
}

#[test]
fn steps_have_their_kinds(rt: HostRuntime) {
    assert!(rt; is_of_kind(Step::In(1, 5), StepKind::In));
    assert!(rt; is_of_kind(Step::Deliver(1), StepKind::Deliver));
    assert!(rt; is_of_kind(Step::Tick(1), StepKind::Tick));
    assert!(rt; is_of_kind(Step::Dup(1), StepKind::Dup));
    assert!(rt; is_of_kind(Step::Lose(1), StepKind::Lose));
    assert!(rt; is_of_kind(Step::Crash(1), StepKind::Crash));
    assert!(rt; is_of_kind(Step::Reboot(1), StepKind::Reboot));
}

// Whether a copy of a key has these bytes.
fn is_copied_as(alloc: Global, key: &Key, bytes: &[u8]) -> Result<bool, AllocError> {
    let copy = key.copy(alloc)?;
    Ok(copy.as_bytes() == bytes)
}

// Whether the bytes make a key, of which a copy has them.
fn make_key(alloc: Global, bytes: &[u8]) -> Result<bool, AllocError> {
    match Key::new(alloc, bytes)? {
        Some(key) => is_copied_as(alloc, &key, bytes),
        None => Ok(false),
    }
}

#[test]
fn tokens_are_told_by_their_bytes(rt: HostRuntime) -> Result<(), Fail> {
    let full = [b'a'; 64];
    let over = [b'a'; 65];
    for (bytes, is_key) in [
        (b"a".as_slice(), true),
        (b"!~".as_slice(), true),
        (full.as_slice(), true),
        (b"".as_slice(), false),
        (over.as_slice(), false),
        (b"a b".as_slice(), false),
        (b"\x7f".as_slice(), false),
    ] {
        assert!(rt; make_key(rt.alloc(), bytes)? == is_key);
    }
    Ok(())
}

// Whether a set that holds the first key has the second.
fn finds<K: Eq + Hash + Drop>(alloc: Global, held: K, sought: &K) -> Result<bool, Fail> {
    let mut keys = HashSet::new(alloc);
    keys.insert(held)?;
    Ok(keys.contains(sought))
}

// Whether a set that holds the key of one text has the key of another.
fn finds_key(alloc: Global, held: &[u8], sought: &[u8]) -> Result<bool, Fail> {
    let sought: Key = token(alloc, sought)?;
    finds(alloc, token(alloc, held)?, &sought)
}

#[test]
fn equal_tokens_are_one_key(rt: HostRuntime) -> Result<(), Fail> {
    assert!(rt; finds_key(rt.alloc(), b"a", b"a")?);
    assert!(rt; !finds_key(rt.alloc(), b"a", b"b")?);
    Ok(())
}
