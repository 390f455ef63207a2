ghost use Rattle.wire_fields.specs.Fields.{optional};
ghost use Rattle.wire_fields.specs.FieldLaws.{optional_is_format};
ghost use Rattle.wire_fields.specs.Formats.{pair};
ghost use Rattle.wire_fields.specs.FormatLaws.{pair_is_format};

use crate::Wire;
use std::alloc::{AllocError, Global};
use wire_fields::Input;

// What takes parts is inlined always, as the methods of `Input` are, so what is left of it stands in registers.
impl<T: Wire> Wire for Option<T> {
    ghost format = { optional T.format };

    #[tactic(auto, using(wire_fields::specs::Fronts::front_stays))]
    fn put(&self, out: &mut Vec<u8>) -> Result<(), AllocError> {
        match self {
            None => Ok(out.push(0)?),
            Some(value) => {
                out.push(1)?;
                value.put(out)
            }
        }
    }

    #[inline(always)]
    fn take(alloc: Global, input: &mut Input<'_>) -> Result<Option<Option<T>>, AllocError> {
        match input.byte() {
            Some(0) => Ok(Some(None)),
            Some(1) => match T::take(alloc, input)? {
                Some(value) => Ok(Some(Some(value))),
                None => Ok(None),
            },
            _ => Ok(None),
        }
    }

    ghost is_format = { optional_is_format T.format T.is_format };
}

impl<A: Wire, B: Wire> Wire for (A, B) {
    ghost format = { pair A.format B.format };

    #[tactic(auto, using(wire_fields::specs::Fronts::front_stays))]
    fn put(&self, out: &mut Vec<u8>) -> Result<(), AllocError> {
        self.0.put(out)?;
        self.1.put(out)
    }

    #[inline(always)]
    fn take(alloc: Global, input: &mut Input<'_>) -> Result<Option<(A, B)>, AllocError> {
        let Some(first) = A::take(alloc, input)? else {
            return Ok(None);
        };
        let Some(second) = B::take(alloc, input)? else {
            return Ok(None);
        };
        Ok(Some((first, second)))
    }

    ghost is_format = { pair_is_format A.format B.format A.is_format B.is_format };
}
