ghost use Rattle.std.specs.Prelude.{◌≡◌, ◌≤◌, length, IsTrue, None, OnOk, IfOk, IfErr};
ghost use Rattle.net_semantics.specs.Once.{once};
ghost use Rattle.net_semantics.specs.Runs.{IsAllowed, first_refused, trace, no_recovery};
ghost use Rattle.seqnum_xform.specs.Numbering.{sequence_numbered};
ghost use Rattle.xform_stack.specs.Running.{IsRunRefusal};
ghost use Rattle.vst_base.specs.Nets.{stops_no_node};
ghost use Rattle.vst_base.specs.declared.step.TheConstants.{MAX_STEPS};

use crate::whole::run_on;
use crate::{Mapped, Ran, RunFault, SteadyWorld};
use handler_trait::Handlers;
use seqnum_xform::{SeqNum, repeats_do_nothing};
use std::alloc::Global;
use trace_maps::{Itself, TraceMap, WithoutRepeats};
use vst_base::{Net, Step};

/// Runs a schedule of handlers on a network that stops no node: the trace, and its image by a map. Where a network has inputs
/// alone there is one node. The first step that the network refuses is answered with its place, the number of steps before it.
pub fn run_mapped<H: Handlers, T: TraceMap<H::Input, H::Output>>(
    alloc: Global,
    handlers: H,
    net: Net,
    steps: &[Step<H::Input>],
) -> Result<Ran<H::Input, H::Output, T::Line>, RunFault>
    requires net { IsTrue (stops_no_node net) }
    requires alone { net ≡ Net.One → (H.meaning handlers).nodes ≡ 1 }
    requires few { length steps.now ≤ MAX_STEPS }
    ensures allowed { OnOk result (first_refused net (H.meaning handlers) no_recovery steps.now ≡ None) }
    ensures trace { IfOk result (λ ran. ran.trace ≡ trace (H.meaning handlers) no_recovery steps.now) }
    ensures image { IfOk result (λ ran. ran.image ≡ T.image_of steps.now (trace (H.meaning handlers) no_recovery steps.now)) }
    ensures refused { IfErr result (λ why. IsRunRefusal why (first_refused net (H.meaning handlers) no_recovery steps.now)) }
{
    let Ok(network) = SteadyWorld::new(alloc, handlers, net) else {
        return Err(RunFault::Memory);
    };
    run_on::<H, SteadyWorld<H>, Mapped<T>>(alloc, network, steps)
}

/// Runs a schedule of handlers on a bag: the trace, and the schedule itself as its image. The first step that
/// the network refuses is answered with its place, the number of steps before it.
pub fn run_bag<H: Handlers>(
    alloc: Global,
    handlers: H,
    steps: &[Step<H::Input>],
) -> Result<Ran<H::Input, H::Output, Step<H::Input>>, RunFault>
    requires { length steps.now ≤ MAX_STEPS }
    ensures allowed { OnOk result (first_refused Net.Bag (H.meaning handlers) no_recovery steps.now ≡ None) }
    ensures trace { IfOk result (λ ran. ran.trace ≡ trace (H.meaning handlers) no_recovery steps.now) }
    ensures image { IfOk result (λ ran. ran.image ≡ steps.now) }
    ensures refused { IfErr result (λ why. IsRunRefusal why (first_refused Net.Bag (H.meaning handlers) no_recovery steps.now)) }
{
    run_mapped::<H, Itself<H::Input>>(alloc, handlers, Net::Bag, steps)
}

/// Runs a schedule of handlers, with their packets numbered, on a network that copies packets: the trace, and the schedule
/// without its repeats as its image. A bag allows the image for the handlers themselves, whose trace under it is the same. The
/// first step that the network refuses is answered with its place, the number of steps before it.
pub fn run_dup<H: Handlers>(
    alloc: Global,
    handlers: H,
    steps: &[Step<H::Input>],
) -> Result<Ran<H::Input, H::Output, Step<H::Input>>, RunFault>
    requires { length steps.now ≤ MAX_STEPS }
    ensures allowed { OnOk result (first_refused Net.Dup (sequence_numbered (H.meaning handlers)) no_recovery steps.now ≡ None) }
    ensures trace { IfOk result (λ ran. ran.trace ≡ trace (sequence_numbered (H.meaning handlers)) no_recovery steps.now) }
    ensures image { IfOk result (λ ran. ran.image ≡ once steps.now) }
    ensures image_allowed { IfOk result (λ ran. IsAllowed Net.Bag (H.meaning handlers) (no_recovery {S = H.State}) ran.image) }
    ensures same_under_image { IfOk result (λ ran. ran.trace ≡ trace (H.meaning handlers) (no_recovery {S = H.State}) ran.image) }
    ensures refused { IfErr result (λ why. IsRunRefusal why (first_refused Net.Dup (sequence_numbered (H.meaning handlers)) no_recovery
        steps.now)) }
{
    repeats_do_nothing::<H>();
    run_mapped::<SeqNum<H>, WithoutRepeats<Itself<H::Input>>>(
        alloc,
        SeqNum::new(handlers),
        Net::Dup,
        steps,
    )
}
