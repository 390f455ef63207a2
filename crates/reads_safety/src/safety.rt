ghost use Rattle.reads_safety.specs.Safety.{AllIsApplied, AppliedGrows, DroppedIsGone, DroppedIsUntold, OnlyLeadersRead, ReadIndex, RunsAreFree, RunsAreLinearizable, RunsAreRaft};

use vst_base::Queries;

/// What clients see of a cluster with reads is linearizable (Herlihy and Wing 1990): of every record of a machine over the types
/// of `M` and every choice of the commands that read, on every cluster of 1 to 9 nodes and every schedule that a network
/// allows which loses, copies and reorders packets and stops and starts nodes.
pub fn laws<M: Queries>()
    // A run is one of Raft, with each read that waits as a timeout of the leader: so all laws of Raft hold of it.
    // And it is one of Raft with free choices, from any moment of it to any later one.
    ensures is_raft { RunsAreRaft M.State M.Cmd M.Out }
    ensures is_free { RunsAreFree M.State M.Cmd M.Out }
    ensures applied_grows { AppliedGrows M.State M.Cmd M.Out }

    // A node has applied all that it knows to be committed, so that no read waits for that; and leaders alone have reads.
    ensures all_is_applied { AllIsApplied M.State M.Cmd M.Out }
    ensures only_leaders_read { OnlyLeadersRead M.State M.Cmd M.Out }

    // Where no pair of a client and a number is used again by a read or for one: once a read has come that waits nowhere and was
    // not answered by a round, it is never answered by a round (it may have taken an entry, and is answered as a write is); and
    // where it waited when it came, clients are never told an output of it.
    ensures dropped_is_gone { DroppedIsGone M.State M.Cmd M.Out }
    ensures dropped_is_untold { DroppedIsUntold M.State M.Cmd M.Out }

    // When a read comes to a leader that answers it later, no node has ever applied more than that leader has committed then.
    ensures read_index { ReadIndex M.State M.Cmd M.Out }

    // One machine, which takes the executed requests and the answered reads in their order, explains what clients see,
    // where each read leaves the machine's state as it is, and no pair of a client and a number is used again where
    // a read is concerned.
    ensures linearizable { RunsAreLinearizable M.State M.Cmd M.Out }
{}
