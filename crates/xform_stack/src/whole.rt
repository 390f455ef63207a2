ghost use Rattle.std.specs.Prelude.{◌≡◌, ◌≤◌, [], length, None, OnOk, IfOk, IfErr};
ghost use Rattle.net_semantics.specs.Runs.{first_refused, trace};
ghost use Rattle.vst_base.specs.declared.step.TheConstants.{MAX_STEPS};
ghost use Rattle.xform_stack.specs.Running.{HasTaken, IsRunRefusal};

use crate::refusing::fault_at;
use crate::{Network, Observer, Ran, RunFault, Running, Runs};
use handler_trait::Handlers;
use std::alloc::Global;
use vst_base::Step;

/// Runs a schedule on a network that has taken no step, to its end: the trace, and the image that is made of it. The first step
/// that the network refuses is answered with its place, the number of steps before it.
pub fn run_on<H: Handlers, W: Network<H>, F: Observer<H, W>>(
    alloc: Global,
    network: W,
    steps: &[Step<H::Input>],
) -> Result<Ran<H::Input, H::Output, F::Line>, RunFault>
    requires started { HasTaken (W.system network) W.follows W.progress [] network }
    requires trace { (W.progress network).trace ≡ [] }
    requires sound { W.sound network }
    requires fits { F.fits (W.within network) (W.system network) }
    requires few { length steps.now ≤ MAX_STEPS }
    ensures allowed { OnOk result (first_refused (W.system network).net (W.system network).meaning (W.system network).recovery
        steps.now ≡ None) }
    ensures trace { IfOk result (λ ran. ran.trace ≡ trace (W.system network).meaning (W.system network).recovery steps.now) }
    ensures image { IfOk result (λ ran. ran.image ≡ F.image_of (W.within network) (W.system network).recovery steps.now) }
    ensures refused { IfErr result (λ why. IsRunRefusal why (first_refused (W.system network).net (W.system network).meaning
        (W.system network).recovery steps.now)) }
{
    let mut running = Running::<H, W, F>::new(alloc, network);
    for step in steps {
        let place = running.taken();
        match running.step(step) {
            Ok(()) => {}
            Err(why) => return Err(fault_at(why, place)),
        }
    }
    match running.finish() {
        Ok(ran) => Ok(ran),
        Err(_) => Err(RunFault::Memory),
    }
}
