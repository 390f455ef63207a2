ghost use Rattle.wire_messages.specs.PeerBytes.{retried};
ghost use Rattle.wire_messages.specs.PeerByteLaws.{retried_is_format};

use crate::Wire;
use std::alloc::{AllocError, Global};
use vst_base::RetryMsg;
use wire_fields::{Input, put_u64};

impl<M: Wire> Wire for RetryMsg<M> {
    ghost format = { retried M.format };

    #[tactic(auto, using(wire_fields::specs::Fronts::front_stays))]
    fn put(&self, out: &mut Vec<u8>) -> Result<(), AllocError> {
        match self {
            RetryMsg::Data { number, inner } => {
                out.push(1)?;
                put_u64(out, *number)?;
                inner.put(out)
            }
            RetryMsg::Ack { number } => {
                out.push(2)?;
                put_u64(out, *number)
            }
        }
    }

    fn take(alloc: Global, input: &mut Input<'_>) -> Result<Option<RetryMsg<M>>, AllocError> {
        match input.byte() {
            Some(1) => {
                let Some(number) = input.u64(0, u64::MAX) else {
                    return Ok(None);
                };
                match M::take(alloc, input)? {
                    Some(inner) => Ok(Some(RetryMsg::Data { number, inner })),
                    None => Ok(None),
                }
            }
            Some(2) => match input.u64(0, u64::MAX) {
                Some(number) => Ok(Some(RetryMsg::Ack { number })),
                None => Ok(None),
            },
            _ => Ok(None),
        }
    }

    ghost is_format = { retried_is_format M.format M.is_format };
}
