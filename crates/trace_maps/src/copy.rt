ghost use Rattle.std.specs.Prelude.{◌≡◌, IfOk};

use handler_trait::Handlers;
use std::alloc::{AllocError, Global};
use vst_base::Step;

// An equal step.
pub(crate) fn copy_step<H: Handlers>(
    alloc: Global,
    handlers: &H,
    step: &Step<H::Input>,
) -> Result<Step<H::Input>, AllocError>
    ensures { IfOk result (λ copy. copy ≡ step.now) }
{
    match step {
        Step::In(n, input) => Ok(Step::In(*n, handlers.copy_input(alloc, input)?)),
        Step::Deliver(k) => Ok(Step::Deliver(*k)),
        Step::Tick(n) => Ok(Step::Tick(*n)),
        Step::Dup(k) => Ok(Step::Dup(*k)),
        Step::Lose(k) => Ok(Step::Lose(*k)),
        Step::Crash(n) => Ok(Step::Crash(*n)),
        Step::Reboot(n) => Ok(Step::Reboot(*n)),
    }
}
