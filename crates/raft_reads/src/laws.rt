ghost use Rattle.raft_reads.specs.Dropping.{EventsDropReads, StartsDropReads};
ghost use Rattle.raft_reads.specs.Erasing.{RunsErase, StepsErase, WithoutReads};

use vst_base::Queries;

/// What a cluster with reads does is what Raft does: with a timeout of the leader in the place of each read that waits, each
/// step has the same refusal, and makes the same of nodes and packets, which keep their numbers. It holds of every record
/// of a machine over the types of `M`, every choice of the commands that read, and every world.
pub fn erases_to_raft<M: Queries>()
    // Step by step, and so of every schedule.
    ensures each_step { StepsErase M.State M.Cmd M.Out }
    ensures each_run { RunsErase M.State M.Cmd M.Out }

    // A cluster that is asked no read behaves as Raft, step for step, and clients see the same.
    ensures without_reads { WithoutReads M.State M.Cmd M.Out }
{}

/// A node that stops leading drops the reads that wait, and what was acknowledged: also where it leads again by the same
/// event, in another term, and where it starts again.
pub fn reads_are_dropped<M: Queries>()
    ensures by_events { EventsDropReads M.State M.Cmd M.Out }
    ensures by_starts { StartsDropReads M.State M.Cmd M.Out }
{}
