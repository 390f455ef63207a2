ghost use Rattle.std.specs.Prelude.{◌≡◌, true, Ok};

use handler_trait::Handlers;
use net_semantics::StepFault;
use std::alloc::AllocError;
use vst_base::{MAX_STEPS, Step};
use xform_stack::Network;

/// Takes one more step, and says whether the network allowed it. The trace is then of that step alone. Want of memory is no refusal.
pub(crate) fn take<H: Handlers, W: Network<H>>(
    network: &mut W,
    step: &Step<H::Input>,
) -> Result<bool, AllocError>
    requires { W.sound network.old }
    ensures { result ≡ Ok true → W.sound network.new }
{
    if network.taken() >= MAX_STEPS {
        return Ok(false);
    }
    network.forget_trace();
    match network.step(step) {
        Ok(()) => Ok(true),
        Err(StepFault::Refused(_)) => Ok(false),
        Err(StepFault::Memory) => Err(AllocError),
    }
}
