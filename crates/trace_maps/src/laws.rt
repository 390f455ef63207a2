ghost use Rattle.std.specs.Prelude.{◌≡◌, List};
ghost use Rattle.net_semantics.specs.Runs.{IsAllowed, machine_trace, no_recovery, outputs_in, trace};
ghost use Rattle.trace_maps.specs.SingleNode.{commands, single_node, alone};
ghost use Rattle.vst_base.specs.Machines.{MachineMeaning, fold};
ghost use Rattle.vst_base.specs.declared.step.Step.{Step};

use vst_base::{Machine, Net};

/// On a network of inputs alone, what clients see of a machine at its node is the machine's own trace: each command, followed by
/// its output, and these outputs are the machine's over the commands. Such a network takes any commands. All this holds of every
/// machine over the types of `M`, and not of the meaning of `M` alone.
pub fn is_the_machine<M: Machine>()
    ensures trace { (m : MachineMeaning M.State M.Cmd M.Out) (ss : List (Step M.Cmd))
        → IsAllowed Net.One (single_node m) (no_recovery {S = M.State}) ss
        → trace (single_node m) (no_recovery {S = M.State}) ss ≡ machine_trace m (commands ss) }
    ensures outputs { (m : MachineMeaning M.State M.Cmd M.Out) (cs : List M.Cmd) → outputs_in (machine_trace m cs) ≡ fold m cs }
    ensures allowed { (m : MachineMeaning M.State M.Cmd M.Out) (cs : List M.Cmd)
        → IsAllowed Net.One (single_node m) (no_recovery {S = M.State}) (alone cs) }
    ensures all_of_them { (cs : List M.Cmd) → commands (alone cs) ≡ cs }
{}
