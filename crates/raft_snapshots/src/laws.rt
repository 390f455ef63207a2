ghost use Rattle.raft_snapshots.specs.Whole.{PlainIsRaft, WholeLogs};

use vst_base::Machine;

/// Where nothing of a log is gone, each word on it says what the word on lists says.
pub fn whole_logs<M: Machine>()
    ensures whole_logs { WholeLogs M.Cmd }
{}

/// The rules are those of Raft: where nothing of a log is gone, each event of a node of the kind that keeps its whole log makes of
/// it what it makes of a node of Raft, tells clients the same, and sends the same.
pub fn plain_is_raft<M: Machine>()
    ensures each_event { PlainIsRaft M.State M.Cmd M.Out }
{}
