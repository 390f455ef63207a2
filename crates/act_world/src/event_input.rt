ghost use Rattle.std.specs.Prelude.{◌≡◌, IfOk};
ghost use Rattle.act_world.specs.Notes.{input_in};

use handler_trait::Handlers;
use std::alloc::{AllocError, Global};
use vst_base::Step;

/// An equal input, where the event has one.
pub fn input_of<H: Handlers>(
    handlers: &H,
    alloc: Global,
    event: &Step<H::Input>,
) -> Result<Option<H::Input>, AllocError>
    ensures { IfOk result (λ input. input ≡ input_in event.now) }
{
    match event {
        Step::In(_, input) => Ok(Some(handlers.copy_input(alloc, input)?)),
        Step::Deliver(_)
        | Step::Tick(_)
        | Step::Dup(_)
        | Step::Lose(_)
        | Step::Crash(_)
        | Step::Reboot(_) => Ok(None),
    }
}
