ghost use Rattle.std.specs.Prelude.{◌≡◌, ◌≤◌, length, None, OnOk, IfOk, IfErr};
ghost use Rattle.net_semantics.specs.BelowPb.{below_pb, IsExplainedBy};
ghost use Rattle.net_semantics.specs.Runs.{first_refused, trace, no_recovery};
ghost use Rattle.primary_backup.specs.Backup.{primary_backup};
ghost use Rattle.seqnum_xform.specs.Numbering.{sequence_numbered};
ghost use Rattle.trace_maps.specs.SingleNode.{alone};
ghost use Rattle.xform_stack.specs.Running.{IsRunRefusal};
ghost use Rattle.vst_base.specs.declared.step.TheConstants.{MAX_STEPS};

use crate::run::run_mapped;
use crate::{Ran, RunFault};
use primary_backup::{PrimaryBackup, one_machine_explains};
use seqnum_xform::{SeqNum, repeats_do_nothing};
use std::alloc::Global;
use trace_maps::RepliedTo;
use vst_base::{Machine, Net, PbOut, Step};

/// Runs a schedule of a machine under primary-backup on a bag: the trace, which the machine explains, and as its image the
/// schedule of the machine alone. The first step that the network refuses is answered with its place, the number of
/// steps before it.
pub fn run_backed<M: Machine>(
    alloc: Global,
    machine: M,
    steps: &[Step<M::Cmd>],
) -> Result<Ran<M::Cmd, PbOut<M::Out>, Step<M::Cmd>>, RunFault>
    requires { length steps.now ≤ MAX_STEPS }
    ensures allowed { OnOk result (first_refused Net.Bag (primary_backup (M.meaning machine)) no_recovery steps.now ≡ None) }
    ensures trace { IfOk result (λ ran. ran.trace ≡ trace (primary_backup (M.meaning machine)) no_recovery steps.now) }
    ensures image { IfOk result (λ ran. ran.image ≡ alone (below_pb ran.trace)) }
    ensures explained { IfOk result (λ ran. IsExplainedBy (M.meaning machine) ran.trace) }
    ensures refused { IfErr result (λ why. IsRunRefusal why (first_refused Net.Bag (primary_backup (M.meaning machine)) no_recovery
        steps.now)) }
{
    one_machine_explains::<M>();
    run_mapped::<PrimaryBackup<M>, RepliedTo<M::Cmd>>(
        alloc,
        PrimaryBackup::new(machine),
        Net::Bag,
        steps,
    )
}

/// The same on a network that copies packets, with their packets numbered. It follows from the theorems of both
/// transformers.
pub fn run_backed_dup<M: Machine>(
    alloc: Global,
    machine: M,
    steps: &[Step<M::Cmd>],
) -> Result<Ran<M::Cmd, PbOut<M::Out>, Step<M::Cmd>>, RunFault>
    requires { length steps.now ≤ MAX_STEPS }
    ensures allowed { OnOk result (first_refused Net.Dup (sequence_numbered (primary_backup (M.meaning machine))) no_recovery steps.now ≡
        None) }
    ensures trace { IfOk result (λ ran. ran.trace ≡ trace (sequence_numbered (primary_backup (M.meaning machine))) no_recovery steps.now) }
    ensures image { IfOk result (λ ran. ran.image ≡ alone (below_pb ran.trace)) }
    ensures explained { IfOk result (λ ran. IsExplainedBy (M.meaning machine) ran.trace) }
    ensures refused { IfErr result (λ why. IsRunRefusal why (first_refused Net.Dup
        (sequence_numbered (primary_backup (M.meaning machine))) no_recovery steps.now)) }
{
    one_machine_explains::<M>();
    repeats_do_nothing::<PrimaryBackup<M>>();
    run_mapped::<SeqNum<PrimaryBackup<M>>, RepliedTo<M::Cmd>>(
        alloc,
        SeqNum::new(PrimaryBackup::new(machine)),
        Net::Dup,
        steps,
    )
}
