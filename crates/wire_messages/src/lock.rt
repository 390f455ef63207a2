ghost use Rattle.wire_fields.specs.Fields.{Reads};
ghost use Rattle.wire_messages.specs.PeerBytes.{lock_message};
ghost use Rattle.wire_messages.specs.PeerByteLaws.{lock_message_is_format};

use crate::Wire;
use std::alloc::{AllocError, Global};
use vst_base::LockMsg;
use wire_fields::Input;

// The message that stands in front.
fn message(input: &mut Input<'_>) -> Option<LockMsg>
    ensures { Reads lock_message input.old input.new result }
{
    match input.byte()? {
        1 => Some(LockMsg::Lock),
        2 => Some(LockMsg::Unlock),
        3 => Some(LockMsg::Locked),
        _ => None,
    }
}

impl Wire for LockMsg {
    ghost format = { lock_message };

    fn put(&self, out: &mut Vec<u8>) -> Result<(), AllocError> {
        let byte = match self {
            LockMsg::Lock => 1,
            LockMsg::Unlock => 2,
            LockMsg::Locked => 3,
        };
        Ok(out.push(byte)?)
    }

    fn take(_alloc: Global, input: &mut Input<'_>) -> Result<Option<LockMsg>, AllocError> {
        Ok(message(input))
    }

    ghost is_format = { lock_message_is_format };
}
