ghost use Rattle.wire_messages.specs.PeerBytes.{numbered};
ghost use Rattle.wire_messages.specs.PeerByteLaws.{numbered_is_format};

use crate::Wire;
use std::alloc::{AllocError, Global};
use vst_base::SeqMsg;
use wire_fields::{Input, put_u64};

impl<M: Wire> Wire for SeqMsg<M> {
    ghost format = { numbered M.format };

    #[tactic(auto, using(wire_fields::specs::Fronts::front_stays))]
    fn put(&self, out: &mut Vec<u8>) -> Result<(), AllocError> {
        put_u64(out, self.number)?;
        self.inner.put(out)
    }

    fn take(alloc: Global, input: &mut Input<'_>) -> Result<Option<SeqMsg<M>>, AllocError> {
        let Some(number) = input.u64(0, u64::MAX) else {
            return Ok(None);
        };
        let Some(inner) = M::take(alloc, input)? else {
            return Ok(None);
        };
        Ok(Some(SeqMsg { number, inner }))
    }

    ghost is_format = { numbered_is_format M.format M.is_format };
}
