ghost use Rattle.wire_messages.specs.PeerBytes.{backup_message};
ghost use Rattle.wire_messages.specs.PeerByteLaws.{backup_message_is_format};

use crate::Wire;
use std::alloc::{AllocError, Global};
use vst_base::PbMsg;
use wire_fields::Input;

impl<C: Wire> Wire for PbMsg<C> {
    ghost format = { backup_message C.format };

    #[tactic(auto, using(wire_fields::specs::Fronts::front_stays))]
    fn put(&self, out: &mut Vec<u8>) -> Result<(), AllocError> {
        match self {
            PbMsg::Apply(cmd) => {
                out.push(1)?;
                cmd.put(out)
            }
            PbMsg::Ack => Ok(out.push(2)?),
        }
    }

    fn take(alloc: Global, input: &mut Input<'_>) -> Result<Option<PbMsg<C>>, AllocError> {
        match input.byte() {
            Some(1) => match C::take(alloc, input)? {
                Some(cmd) => Ok(Some(PbMsg::Apply(cmd))),
                None => Ok(None),
            },
            Some(2) => Ok(Some(PbMsg::Ack)),
            _ => Ok(None),
        }
    }

    ghost is_format = { backup_message_is_format C.format C.is_format };
}
