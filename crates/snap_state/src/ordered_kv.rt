ghost use Rattle.std.specs.Prelude.{◌≡◌, IfOk, IsOk, OnOk};
ghost use Rattle.std.specs.FinMap as map;
ghost use Rattle.kv_machine.specs.Kv.{is_read, keeps, kv, removes, sets};
ghost use Rattle.kv_machine.specs.Reading.{reads_leave};
ghost use Rattle.snap_state.specs.KvLaws.{first_is_empty, one_more};
ghost use Rattle.snap_state.specs.StateLaws.{store_is_format};
ghost use Rattle.snap_state.specs.States.{store};

use crate::{OrderedKey, Snap, Store};
use key_map::copy_token;
use kv_machine::{KvCmd, KvMachine, KvOut};
use std::alloc::{AllocError, Global};
use vst_base::{Key, Machine, Queries, Value};
use wire_fields::Input;

/// The key-value machine over pairs in the order of their keys. A command takes time with the logarithm of their number.
#[derive(Drop)]
pub struct OrderedKv;

// The store stays as it is.
fn keeps(alloc: Global, state: &Store, key: &Key) -> Result<KvOut, AllocError>
    ensures { IfOk result (λ out. out ≡ (keeps state.now key.now).1) }
{
    let own = OrderedKey::of(alloc, key)?;
    let value = state.get(&own);
    Ok(KvOut {
        key: key.copy(alloc)?,
        after: copy_token(alloc, value)?,
        before: copy_token(alloc, value)?,
    })
}

// The key has the value from now on.
fn sets(alloc: Global, state: &mut Store, key: &Key, value: &Value) -> Result<KvOut, AllocError>
    ensures state { OnOk result (state.new ≡ (sets state.old key.now value.now).0) }
    ensures output { IfOk result (λ out. out ≡ (sets state.old key.now value.now).1) }
{
    let before = state.insert(OrderedKey::of(alloc, key)?, value.copy(alloc)?)?;
    Ok(KvOut {
        key: key.copy(alloc)?,
        after: Some(value.copy(alloc)?),
        before,
    })
}

// The key has no value from now on.
fn removes(alloc: Global, state: &mut Store, key: &Key) -> Result<KvOut, AllocError>
    ensures state { OnOk result (state.new ≡ (removes state.old key.now).0) }
    ensures output { IfOk result (λ out. out ≡ (removes state.old key.now).1) }
{
    let before = state.remove(&OrderedKey::of(alloc, key)?);
    Ok(KvOut {
        key: key.copy(alloc)?,
        after: None,
        before,
    })
}

impl Machine for OrderedKv {
    type State = Store;

    type Cmd = KvCmd;

    type Out = KvOut;

    ghost meaning = { λ _. kv };

    fn init(&self, alloc: Global) -> Result<Store, AllocError>
        ensures first { IfOk result (λ state. state ≡ kv.init) }
        ensures succeeds { IsOk result }
    {
        Ok(Store::new(alloc))
    }

    fn apply(&self, alloc: Global, state: &mut Store, cmd: &KvCmd) -> Result<KvOut, AllocError> {
        match cmd {
            KvCmd::Get(key) => keeps(alloc, state, key),
            KvCmd::Put(key, value) => sets(alloc, state, key, value),
            KvCmd::Del(key) => removes(alloc, state, key),
            KvCmd::Cas(key, expected, value) => {
                if state.holds(&OrderedKey::of(alloc, key)?, expected.as_ref()) {
                    sets(alloc, state, key, value)
                } else {
                    keeps(alloc, state, key)
                }
            }
            KvCmd::Cad(key, value) => {
                if state.holds(&OrderedKey::of(alloc, key)?, Some(value)) {
                    removes(alloc, state, key)
                } else {
                    keeps(alloc, state, key)
                }
            }
        }
    }

    fn copy_cmd(&self, alloc: Global, cmd: &KvCmd) -> Result<KvCmd, AllocError> {
        KvMachine.copy_cmd(alloc, cmd)
    }

    fn copy_out(&self, alloc: Global, out: &KvOut) -> Result<KvOut, AllocError> {
        KvMachine.copy_out(alloc, out)
    }
}

impl Queries for OrderedKv {
    ghost reads = { λ _ c. is_read c };

    fn is_read(&self, cmd: &KvCmd) -> bool {
        matches!(cmd, KvCmd::Get(_))
    }

    ghost leaves = { λ _ s c read. reads_leave s c read };
}

impl Snap for OrderedKv {
    ghost states = { λ _. store };

    ghost parts = { λ _ s. map.len s };

    fn put_state(&self, state: &Store, out: &mut Vec<u8>) -> Result<(), AllocError> {
        state.put(out)
    }

    fn take_state(
        &self,
        alloc: Global,
        input: &mut Input<'_>,
        most: u32,
    ) -> Result<Option<Store>, AllocError> {
        Store::take(alloc, input, most)
    }

    ghost is_format = { λ _. store_is_format };

    ghost none_at_first = { λ _. first_is_empty };

    ghost one_more = { λ _ s c. one_more s c };
}
