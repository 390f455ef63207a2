ghost use Rattle.std.specs.Prelude.{◌≡◌, IfOk, OnOk};
ghost use Rattle.kv_machine.specs.Kv.{keeps, removes, sets};

use crate::{KvOut, KvState};
use key_map::copy_token;
use std::alloc::{AllocError, Global};
use vst_base::{Key, Value};

// The store stays as it is.
pub fn keeps(alloc: Global, state: &KvState, key: &Key) -> Result<KvOut, AllocError>
    ensures { IfOk result (λ out. out ≡ (keeps state.now key.now).1) }
{
    let value = state.get(key);
    Ok(KvOut {
        key: key.copy(alloc)?,
        after: copy_token(alloc, value)?,
        before: copy_token(alloc, value)?,
    })
}

// The key has the value from now on.
pub fn sets(
    alloc: Global,
    state: &mut KvState,
    key: &Key,
    value: &Value,
) -> Result<KvOut, AllocError>
    ensures state { OnOk result (state.new ≡ (sets state.old key.now value.now).0) }
    ensures output { IfOk result (λ out. out ≡ (sets state.old key.now value.now).1) }
{
    let before = state.insert(key.copy(alloc)?, value.copy(alloc)?)?;
    Ok(KvOut {
        key: key.copy(alloc)?,
        after: Some(value.copy(alloc)?),
        before,
    })
}

// The key has no value from now on.
pub fn removes(alloc: Global, state: &mut KvState, key: &Key) -> Result<KvOut, AllocError>
    ensures state { OnOk result (state.new ≡ (removes state.old key.now).0) }
    ensures output { IfOk result (λ out. out ≡ (removes state.old key.now).1) }
{
    let before = state.remove(key);
    Ok(KvOut {
        key: key.copy(alloc)?,
        after: None,
        before,
    })
}
