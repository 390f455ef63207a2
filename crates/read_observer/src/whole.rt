ghost use Rattle.std.specs.Prelude.{◌≡◌, ◌≤◌, [], length, None, OnOk, IfOk, IfErr};
ghost use Rattle.xform_stack.specs.Running.{HasRun, IsRunRefusal};
ghost use Rattle.vst_base.specs.declared.step.TheConstants.{MAX_STEPS};

use vst_base::Step;
use xform_stack::{Ran, RunFault, Runs, fault_at};

/// Runs a schedule, of which no step was taken yet, to its end: the trace, and the image that is made of it. The first step that is
/// refused is answered with its place, the number of steps before it.
pub fn run_to_end<R: Runs>(
    running: R,
    steps: &[Step<R::Input>],
) -> Result<Ran<R::Input, R::Output, R::Line>, RunFault>
    requires started { HasRun (R.played running) R.follows R.progress [] [] running }
    requires sound { R.sound running }
    requires few { length steps.now ≤ MAX_STEPS }
    ensures allowed { OnOk result ((R.played running).refused steps.now ≡ None) }
    ensures trace { IfOk result (λ ran. ran.trace ≡ (R.played running).trace steps.now) }
    ensures image { IfOk result (λ ran. ran.image ≡ (R.played running).image steps.now) }
    ensures refused { IfErr result (λ why. IsRunRefusal why ((R.played running).refused steps.now)) }
{
    let mut running = running;
    for step in steps {
        let place = running.taken();
        match running.step(step) {
            Ok(()) => {}
            Err(why) => return Err(fault_at(why, place)),
        }
    }
    match running.finish() {
        Ok(ran) => Ok(ran),
        Err(_) => Err(RunFault::Memory),
    }
}
