ghost use Rattle.wire_fields.specs.Fields.{key, value};
ghost use Rattle.wire_fields.specs.FieldLaws.{key_is_format, value_is_format};

use crate::Wire;
use std::alloc::{AllocError, Global};
use vst_base::{Key, Value};
use wire_fields::{Input, put_key, put_value};

impl Wire for Key {
    ghost format = { key };

    fn put(&self, out: &mut Vec<u8>) -> Result<(), AllocError> {
        put_key(out, self)
    }

    #[inline(always)]
    fn take(alloc: Global, input: &mut Input<'_>) -> Result<Option<Key>, AllocError> {
        match input.key() {
            Some(token) => Ok(Some(Key::from_token(alloc, token)?)),
            None => Ok(None),
        }
    }

    ghost is_format = { key_is_format };
}

impl Wire for Value {
    ghost format = { value };

    fn put(&self, out: &mut Vec<u8>) -> Result<(), AllocError> {
        put_value(out, self)
    }

    #[inline(always)]
    fn take(alloc: Global, input: &mut Input<'_>) -> Result<Option<Value>, AllocError> {
        match input.value() {
            Some(token) => Ok(Some(Value::from_token(alloc, token)?)),
            None => Ok(None),
        }
    }

    ghost is_format = { value_is_format };
}
