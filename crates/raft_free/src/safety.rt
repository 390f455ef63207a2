ghost use Rattle.raft_free.specs.Safety.{CommittedKept, CommittedKeptBefore, ElectionSafety, LeaderAppendOnly, LeaderCompleteness, LeaderCompletenessBefore, LogMatching, MatchesBelowCommit, NoCommittedConflict, NoRivalAppends, NothingInvented, Possible, StateMachineSafety};

/// The five safety properties of Raft, for any number of nodes and commands of any type, over every run
/// and any two moments of it.
pub fn safety_of_raft<C>()
    // No two nodes lead in one term.
    ensures election_safety { ElectionSafety C }

    // While a node leads in one term, its log only grows at its end.
    ensures leader_append_only { LeaderAppendOnly C }

    // Logs with equal terms at an index agree up to it.
    ensures log_matching { LogMatching C }

    // What a leader commits, with all before it, is in the log of each leader of a greater term, whether
    // it leads later or led before.
    ensures leader_completeness { LeaderCompleteness C }
    ensures leader_completeness_before { LeaderCompletenessBefore C }

    // The same of what any node knows to be committed.
    ensures committed_kept { CommittedKept C }
    ensures committed_kept_before { CommittedKeptBefore C }

    // What any two nodes have applied at an index is the same.
    ensures state_machine_safety { StateMachineSafety C }
{}

/// Three answers of a node to entries that never come: no leader is sent entries of its own term, and no
/// entries of a node's own term that are sent to it conflict with what it knows to be committed, or fail to
/// match its log at an index up to its commit.
pub fn refusals_never_come<C>()
    ensures no_rival_appends { NoRivalAppends C }
    ensures no_committed_conflict { NoCommittedConflict C }
    ensures matches_below_commit { MatchesBelowCommit C }
{}

/// Each entry of a log was proposed in the run.
pub fn entries_are_proposed<C>()
    ensures { NothingInvented C }
{}

/// The laws are not empty: each request of a command can come to be committed and applied.
pub fn commits_are_possible<C>()
    ensures { Possible C }
{}
