ghost use Rattle.wire_messages.specs.PeerBytes.{mirror_message};
ghost use Rattle.wire_messages.specs.PeerByteLaws.{mirror_message_is_format};

use crate::Wire;
use std::alloc::{AllocError, Global};
use vst_base::{MirrorMsg, Value};
use wire_fields::{Input, put_value};

impl Wire for MirrorMsg {
    ghost format = { mirror_message };

    #[tactic(auto, using(wire_fields::specs::Fronts::front_stays))]
    fn put(&self, out: &mut Vec<u8>) -> Result<(), AllocError> {
        match self {
            MirrorMsg::Item(value) => {
                out.push(1)?;
                put_value(out, value)
            }
        }
    }

    fn take(alloc: Global, input: &mut Input<'_>) -> Result<Option<MirrorMsg>, AllocError> {
        match input.byte() {
            Some(1) => match Value::take(alloc, input)? {
                Some(value) => Ok(Some(MirrorMsg::Item(value))),
                None => Ok(None),
            },
            _ => Ok(None),
        }
    }

    ghost is_format = { mirror_message_is_format };
}
