ghost use Rattle.wire_messages.specs.KvBytes.{kv_command, kv_output};
ghost use Rattle.wire_messages.specs.KvByteLaws.{kv_command_is_format, kv_output_is_format};

use crate::Wire;
use kv_machine::{KvCmd, KvOut};
use std::alloc::{AllocError, Global};
use vst_base::{Key, Value};
use wire_fields::{Input, put_kind_and_key, put_value};

impl Wire for KvCmd {
    ghost format = { kv_command };

    #[tactic(auto, using(wire_fields::specs::Fronts::front_stays))]
    fn put(&self, out: &mut Vec<u8>) -> Result<(), AllocError> {
        match self {
            KvCmd::Get(key) => put_kind_and_key(out, 1, key),
            KvCmd::Put(key, value) => {
                put_kind_and_key(out, 2, key)?;
                put_value(out, value)
            }
            KvCmd::Del(key) => put_kind_and_key(out, 3, key),
            KvCmd::Cas(key, expected, value) => {
                put_kind_and_key(out, 4, key)?;
                expected.put(out)?;
                put_value(out, value)
            }
            KvCmd::Cad(key, value) => {
                put_kind_and_key(out, 5, key)?;
                put_value(out, value)
            }
        }
    }

    fn take(alloc: Global, input: &mut Input<'_>) -> Result<Option<KvCmd>, AllocError> {
        match input.byte() {
            Some(1) => match Key::take(alloc, input)? {
                Some(key) => Ok(Some(KvCmd::Get(key))),
                None => Ok(None),
            },
            Some(2) => match <(Key, Value)>::take(alloc, input)? {
                Some((key, value)) => Ok(Some(KvCmd::Put(key, value))),
                None => Ok(None),
            },
            Some(3) => match Key::take(alloc, input)? {
                Some(key) => Ok(Some(KvCmd::Del(key))),
                None => Ok(None),
            },
            Some(4) => match <(Key, (Option<Value>, Value))>::take(alloc, input)? {
                Some((key, (expected, value))) => Ok(Some(KvCmd::Cas(key, expected, value))),
                None => Ok(None),
            },
            Some(5) => match <(Key, Value)>::take(alloc, input)? {
                Some((key, value)) => Ok(Some(KvCmd::Cad(key, value))),
                None => Ok(None),
            },
            _ => Ok(None),
        }
    }

    ghost is_format = { kv_command_is_format };
}

impl Wire for KvOut {
    ghost format = { kv_output };

    #[tactic(auto, using(wire_fields::specs::Fronts::front_stays))]
    fn put(&self, out: &mut Vec<u8>) -> Result<(), AllocError> {
        self.key.put(out)?;
        self.after.put(out)?;
        self.before.put(out)
    }

    fn take(alloc: Global, input: &mut Input<'_>) -> Result<Option<KvOut>, AllocError> {
        match <(Key, (Option<Value>, Option<Value>))>::take(alloc, input)? {
            Some((key, (after, before))) => Ok(Some(KvOut { key, after, before })),
            None => Ok(None),
        }
    }

    ghost is_format = { kv_output_is_format };
}
