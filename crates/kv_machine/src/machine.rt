ghost use Rattle.std.specs.Prelude.{◌≡◌, IfOk, IsOk};
ghost use Rattle.kv_machine.specs.Kv.{is_read, kv};
ghost use Rattle.kv_machine.specs.Reading.{reads_leave};

use crate::changes::{keeps, removes, sets};
use crate::{KvCmd, KvOut, KvState};
use key_map::copy_token;
use std::alloc::{AllocError, Global};
use vst_base::{Machine, Queries};

/// The key-value store. A command costs a hash look-up or two.
#[derive(Drop)]
pub struct KvMachine;

impl Machine for KvMachine {
    type State = KvState;

    type Cmd = KvCmd;

    type Out = KvOut;

    ghost meaning = { λ _. kv };

    fn init(&self, alloc: Global) -> Result<KvState, AllocError>
        ensures first { IfOk result (λ state. state ≡ kv.init) }
        ensures succeeds { IsOk result }
    {
        Ok(KvState::new(alloc))
    }

    fn apply(&self, alloc: Global, state: &mut KvState, cmd: &KvCmd) -> Result<KvOut, AllocError> {
        match cmd {
            KvCmd::Get(key) => keeps(alloc, state, key),
            KvCmd::Put(key, value) => sets(alloc, state, key, value),
            KvCmd::Del(key) => removes(alloc, state, key),
            KvCmd::Cas(key, expected, value) => {
                if state.holds(key, expected.as_ref()) {
                    sets(alloc, state, key, value)
                } else {
                    keeps(alloc, state, key)
                }
            }
            KvCmd::Cad(key, value) => {
                if state.holds(key, Some(value)) {
                    removes(alloc, state, key)
                } else {
                    keeps(alloc, state, key)
                }
            }
        }
    }

    fn copy_cmd(&self, alloc: Global, cmd: &KvCmd) -> Result<KvCmd, AllocError> {
        Ok(match cmd {
            KvCmd::Get(key) => KvCmd::Get(key.copy(alloc)?),
            KvCmd::Put(key, value) => KvCmd::Put(key.copy(alloc)?, value.copy(alloc)?),
            KvCmd::Del(key) => KvCmd::Del(key.copy(alloc)?),
            KvCmd::Cas(key, expected, value) => KvCmd::Cas(
                key.copy(alloc)?,
                copy_token(alloc, expected.as_ref())?,
                value.copy(alloc)?,
            ),
            KvCmd::Cad(key, value) => KvCmd::Cad(key.copy(alloc)?, value.copy(alloc)?),
        })
    }

    fn copy_out(&self, alloc: Global, out: &KvOut) -> Result<KvOut, AllocError> {
        Ok(KvOut {
            key: out.key.copy(alloc)?,
            after: copy_token(alloc, out.after.as_ref())?,
            before: copy_token(alloc, out.before.as_ref())?,
        })
    }
}

impl Queries for KvMachine {
    ghost reads = { λ _ c. is_read c };

    fn is_read(&self, cmd: &KvCmd) -> bool {
        matches!(cmd, KvCmd::Get(_))
    }

    ghost leaves = { λ _ s c read. reads_leave s c read };
}
