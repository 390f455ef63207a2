ghost use Rattle.std.specs.Prelude.{◌≡◌, ◌≤◌, length, None, OnOk, IfOk, IfErr};
ghost use Rattle.net_semantics.specs.Runs.{first_refused, machine_trace, no_recovery};
ghost use Rattle.trace_maps.specs.SingleNode.{commands, single_node};
ghost use Rattle.xform_stack.specs.Running.{IsRunRefusal};
ghost use Rattle.vst_base.specs.declared.step.TheConstants.{MAX_STEPS};

use crate::run::run_mapped;
use crate::{Ran, RunFault};
use std::alloc::Global;
use trace_maps::{Itself, SingleNode, is_the_machine};
use vst_base::{Machine, Net, Step};

/// Runs a schedule of a machine at one node, on a network of inputs alone: the machine's own trace, and the schedule itself as its
/// image. The first step that the network refuses is answered with its place, the number of steps before it.
pub fn run_one<M: Machine>(
    alloc: Global,
    machine: M,
    steps: &[Step<M::Cmd>],
) -> Result<Ran<M::Cmd, M::Out, Step<M::Cmd>>, RunFault>
    requires { length steps.now ≤ MAX_STEPS }
    ensures allowed { OnOk result (first_refused Net.One (single_node (M.meaning machine)) no_recovery steps.now ≡ None) }
    ensures trace { IfOk result (λ ran. ran.trace ≡ machine_trace (M.meaning machine) (commands steps.now)) }
    ensures image { IfOk result (λ ran. ran.image ≡ steps.now) }
    ensures refused { IfErr result (λ why. IsRunRefusal why (first_refused Net.One (single_node (M.meaning machine)) no_recovery
        steps.now)) }
{
    is_the_machine::<M>();
    run_mapped::<SingleNode<M>, Itself<M::Cmd>>(alloc, SingleNode::new(machine), Net::One, steps)
}
