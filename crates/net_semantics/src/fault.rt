ghost use Rattle.std.specs.Prelude.{◌≡◌};
ghost use Rattle.net_semantics.specs.declared.fault.StepFault.TheVariants as fault;

use std::alloc::AllocError;
use thiserror::Error;
use vst_base::StepRefusal;

/// Why a world took no step.
#[derive(Clone, Copy, Debug, PartialEq, Eq, Error)]
pub enum StepFault {
    /// The step is refused, and this is the first refusal that applies.
    #[error("{0}")]
    Refused(StepRefusal),
    /// Want of memory.
    #[error("out of memory")]
    Memory,
}

impl From<StepRefusal> for StepFault {
    ghost from_gives = { λ why given. given ≡ fault.Refused why };

    fn from(why: StepRefusal) -> StepFault {
        StepFault::Refused(why)
    }
}

impl From<AllocError> for StepFault {
    ghost from_gives = { λ _ given. given ≡ fault.Memory };

    fn from(_: AllocError) -> StepFault {
        StepFault::Memory
    }
}
