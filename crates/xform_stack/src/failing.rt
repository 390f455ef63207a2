ghost use Rattle.std.specs.Prelude.{◌≡◌, ◌≤◌, length, IfErr, IfOk, OnOk};
ghost use Rattle.linearizability.specs.Linearizable.{IsLinearizable};
ghost use Rattle.net_semantics.specs.Runs.{IsAllowed, first_refused};
ghost use Rattle.raft_safety.specs.Applied.{executed_by};
ghost use Rattle.raft_safety.specs.Runs.{seen};
ghost use Rattle.raft_types.specs.Messages.{IsClusterSize};
ghost use Rattle.raft_xform.specs.Raft.{raft, raft_recovery};
ghost use Rattle.xform_stack.specs.Running.{IsRunRefusal};
ghost use Rattle.vst_base.specs.declared.step.TheConstants.{MAX_STEPS};

use crate::whole::run_on;
use crate::{Ran, RunFault};
use applied_order::AppliedOrder;
use net_semantics::FailWorld;
use raft_types::{RaftInput, RaftOut};
use raft_xform::Raft;
use std::alloc::Global;
use vst_base::{Machine, Net, Step};

/// Runs a schedule of a machine on a cluster of so many nodes, on a network that loses and copies packets and whose nodes stop and
/// start again: the trace, and as its image the requests in the order in which one machine takes them, which explains the
/// trace (linearizability, Herlihy and Wing 1990). The first step that the network refuses is answered with its place, the number
/// of steps before it.
pub fn run_fail<M: Machine>(
    alloc: Global,
    machine: M,
    nodes: u8,
    steps: &[Step<RaftInput<M::Cmd>>],
) -> Result<Ran<RaftInput<M::Cmd>, RaftOut<M::Out>, RaftInput<M::Cmd>>, RunFault>
    requires size { IsClusterSize nodes }
    requires few { length steps.now ≤ MAX_STEPS }
    ensures allowed { OnOk result (IsAllowed Net.Fail (raft nodes (M.meaning machine)) (raft_recovery (M.meaning machine)) steps.now) }
    ensures trace { IfOk result (λ ran. ran.trace ≡ seen (M.meaning machine) nodes steps.now) }
    ensures image { IfOk result (λ ran. ran.image ≡ executed_by (M.meaning machine) nodes steps.now) }
    ensures linearizable { IfOk result (λ ran. IsLinearizable (M.meaning machine) ran.image ran.trace) }
    ensures refused { IfErr result (λ why. IsRunRefusal why (first_refused Net.Fail (raft nodes (M.meaning machine))
        (raft_recovery (M.meaning machine)) steps.now)) }
{
    raft_safety::laws::<M>();
    let Ok(network) = FailWorld::new(alloc, Raft::new(machine, nodes)) else {
        return Err(RunFault::Memory);
    };
    run_on::<Raft<M>, FailWorld<Raft<M>>, AppliedOrder<M::Cmd>>(alloc, network, steps)
}
