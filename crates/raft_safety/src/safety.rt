ghost use Rattle.raft_free.specs.Safety as free;
ghost use Rattle.raft_safety.specs.Safety.{AppliedGrows, AppliedIsThere, CommitsRiseByTheRule, CommittedKept, CommittedKeptBefore, EachHasABeginning, EachMachineFollows, ElectionSafety, ExecutedEntriesGrow, ExecutedGrows, FirstIsFree, IsFree, LeaderAppendOnly, LeaderCompleteness, LeaderCompletenessBefore, LogMatching, NoCommittedConflict, NoRivalAppends, RunsAreLinearizable, StateMachineSafety, StepIsFree};

use vst_base::Machine;

/// Raft keeps the five safety properties of the Raft paper's Figure 3 (Ongaro and Ousterhout 2014), and what clients
/// see of a cluster is linearizable (Herlihy and Wing 1990). The clauses of the first group are of Raft with free
/// choices, on any number of nodes. All others are of the handlers `Raft`, for every record of a machine over the types
/// of `M`, and not for the meaning of `M` alone, on every cluster of 1 to 9 nodes and every schedule that a network
/// allows which loses, copies and reorders packets and stops and starts nodes. Properties of two moments are of
/// any two moments of a run. A node that is down has the log that it kept.
pub fn laws<M: Machine>()
    // With free choices: no two nodes lead in one term; while a node leads in one term, its log only grows at its end;
    // logs with equal terms at an index agree up to it; what a leader commits, with all before it, is in the log of each
    // leader of a greater term, whether it leads later or led before; what any two nodes have applied at an index is the same.
    ensures free_election_safety { free.ElectionSafety M.Cmd }
    ensures free_leader_append_only { free.LeaderAppendOnly M.Cmd }
    ensures free_log_matching { free.LogMatching M.Cmd }
    ensures free_leader_completeness { free.LeaderCompleteness M.Cmd }
    ensures free_leader_completeness_before { free.LeaderCompletenessBefore M.Cmd }
    ensures free_state_machine_safety { free.StateMachineSafety M.Cmd }

    // Whatever a cluster does, Raft with free choices may do. A run begins in a world that a free one mirrors, and from
    // each free world that mirrors a moment of it a list of free events leads on to one that mirrors the next. So two
    // moments of a run are mirrored by two of a free run.
    ensures first_is_free { FirstIsFree M.State M.Cmd M.Out }
    ensures each_step_is_free { StepIsFree M.State M.Cmd M.Out }
    ensures moments_are_free { IsFree M.State M.Cmd M.Out }

    // So a cluster keeps the five properties. No two nodes lead in one term.
    ensures election_safety { ElectionSafety M.State M.Cmd M.Out }

    // While a node leads in one term, its log only grows at its end.
    ensures leader_append_only { LeaderAppendOnly M.State M.Cmd M.Out }

    // Logs with equal terms at an index agree up to it.
    ensures log_matching { LogMatching M.State M.Cmd M.Out }

    // What a leader commits by the rule in its term, with all before it, is in the log of each leader of a greater
    // term, whether it leads later or led before. A leader's commit rises by the rule alone: to an entry of its term
    // that it knows most nodes to have.
    ensures leader_completeness { LeaderCompleteness M.State M.Cmd M.Out }
    ensures leader_completeness_before { LeaderCompletenessBefore M.State M.Cmd M.Out }
    ensures commits_rise_by_the_rule { CommitsRiseByTheRule M.State M.Cmd M.Out }

    // What any node knows to be committed, with all before it, is in the log of each leader of a term over the node's.
    ensures committed_kept { CommittedKept M.State M.Cmd M.Out }
    ensures committed_kept_before { CommittedKeptBefore M.State M.Cmd M.Out }

    // What any two nodes have applied up to an index is the same, and a node has in its log all that it
    // has applied.
    ensures state_machine_safety { StateMachineSafety M.State M.Cmd M.Out }
    ensures applied_is_there { AppliedIsThere M.State M.Cmd M.Out }

    // Two cases of a leader's AppendEntries never come: no leader is sent one of its own term (it would ignore it),
    // and none of a node's own term that is sent to it conflicts with what it knows to be committed (it would refuse it).
    ensures no_rival_appends { NoRivalAppends M.State M.Cmd M.Out }
    ensures no_committed_conflict { NoCommittedConflict M.State M.Cmd M.Out }

    // The longest list of entries that a node has applied at any moment of a schedule only grows at its end as
    // further steps are taken, and so do the requests of it that are executed, and the entries that hold these, with
    // the node that took each. Each node has applied a beginning of it, and its machine is as one machine that takes
    // the executed commands of that beginning.
    ensures applied_grows { AppliedGrows M.State M.Cmd M.Out }
    ensures executed_grows { ExecutedGrows M.State M.Cmd M.Out }
    ensures executed_entries_grow { ExecutedEntriesGrow M.State M.Cmd M.Out }
    ensures each_node_has_a_beginning { EachHasABeginning M.State M.Cmd M.Out }
    ensures each_machine_follows { EachMachineFollows M.State M.Cmd M.Out }

    // One machine, which takes the executed requests of the applied list in their order, explains what clients see: each
    // is executed once, and a client put it in; each output that a client is told is the machine's; and none is told
    // before the request, and each before it in the order, was put in.
    ensures linearizable { RunsAreLinearizable M.State M.Cmd M.Out }
{}
