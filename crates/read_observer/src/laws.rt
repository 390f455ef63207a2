ghost use Rattle.std.specs.Prelude.{◌≡◌, ◌↔◌, List, None};
ghost use Rattle.raft_reads.specs.Clusters.{ReadCluster};
ghost use Rattle.raft_types.specs.declared.client.RaftInput.{RaftInput};
ghost use Rattle.read_observer.specs.Pairs.{first_used};
ghost use Rattle.reads_safety.specs.Runs.{ArePairsUnused};
ghost use Rattle.vst_base.specs.declared.step.Step.{Step};

use vst_base::Queries;

/// No step of a schedule uses a pair again, where a read is concerned, exactly where each pair is unused by all later steps. It holds of
/// every record of a machine over the types of `M`, and every choice of the commands that read.
pub fn pairs_are_unused<M: Queries>()
    ensures { (c : ReadCluster M.State M.Cmd M.Out) (ss : List (Step (RaftInput M.Cmd)))
        → (first_used c.is_read ss ≡ None) ↔ ArePairsUnused c ss }
{}
