ghost use Rattle.snap_safety.specs.Safety.{AppliedGrows, AppliedIsFree, EachMachineFollows, ExecutedGrows, IsFree, NoneIsDropped, NoneIsMissing, RunsAreLinearizable};

use vst_base::Machine;

/// A cluster with snapshots is safe, and clients see one machine: of every record of a machine over the types of `M`, every way of
/// keeping snapshots (when a node shortens its log, and how a snapshot is spelled in bytes), any number of nodes, and
/// every schedule that a network allows which loses, copies and reorders packets and stops and starts nodes.
pub fn laws<M: Machine>()
    // A run is one of Raft with free choices over whole logs, from any moment of it to any later one: a snapshot that is taken
    // is all entries up to its index. So all laws of free choices hold of the whole logs.
    ensures is_free { IsFree M.State M.Cmd M.Out }

    // The applied list, which is put together from what each event of a node applied, is what some node of such a run had applied,
    // and none has applied more. An event that applies entries finds all before them in the list, also at a node that knows a snapshot
    // in their place.
    ensures applied_is_free { AppliedIsFree M.State M.Cmd M.Out }
    ensures none_is_missing { NoneIsMissing M.State M.Cmd M.Out }

    // It only grows at its end as further steps are taken, and so do the requests of it that are executed. Each node has applied a
    // beginning of it: its machine and its sessions are what these entries make of the first ones.
    ensures applied_grows { AppliedGrows M.State M.Cmd M.Out }
    ensures executed_grows { ExecutedGrows M.State M.Cmd M.Out }
    ensures each_machine_follows { EachMachineFollows M.State M.Cmd M.Out }

    // The pieces of a snapshot that a node keeps fit together: once the last has come, what it has is the snapshot. So none is dropped
    // where snapshots can be read.
    ensures none_is_dropped { NoneIsDropped M.State M.Cmd M.Out }

    // One machine, which takes the executed requests of the applied list in their order, explains what clients see.
    ensures linearizable { RunsAreLinearizable M.State M.Cmd M.Out }
{}
