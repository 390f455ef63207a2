ghost use Rattle.std.specs.Prelude.{ℕ, ◌<◌, ◌≤◌, length, IfSome};
ghost use Rattle.raft_types.specs.Messages.{KeptView, IsClusterSize};
ghost use Rattle.raft_types.specs.declared.client.RaftInput.{RaftInput};
ghost use Rattle.raft_types.specs.declared.limits.TheConstants.{MAX_INDEX};
ghost use Rattle.raft_types.specs.declared.msg.RaftMsg.{RaftMsg};
ghost use Rattle.raft_xform.specs.Nodes.{RaftView};
ghost use Rattle.raft_xform.specs.Raft.{raft, raft_recovery};
ghost use Rattle.raft_xform.specs.Sound.{AreInRange, IsInRange, IsSoundNode};
ghost use Rattle.vst_base.specs.Machines.{MachineMeaning};
ghost use Rattle.vst_base.specs.declared.entry.TheConstants.{MAX_TERM};

use vst_base::Machine;

/// A node starts sound, and whatever comes keeps it so, a forged message in range too. It holds of every
/// record of a machine over the types of `M`, and not of the meaning of `M` alone.
pub fn events_keep_a_node_sound<M: Machine>()
    ensures start { (nodes me : ℕ) (m : MachineMeaning M.State M.Cmd M.Out) → IsClusterSize nodes → me < nodes
        → IsSoundNode nodes me ((raft nodes m).init me) }
    ensures reboot { (nodes me : ℕ) (m : MachineMeaning M.State M.Cmd M.Out) (k : KeptView M.Cmd)
        → IsClusterSize nodes → me < nodes → k.term ≤ MAX_TERM → IfSome k.voted (λ node. node < nodes) → length k.log ≤ MAX_INDEX
        → IsSoundNode nodes me ((raft_recovery m).reboot me k) }
    ensures input { (nodes me : ℕ) (m : MachineMeaning M.State M.Cmd M.Out) (s : RaftView M.State M.Cmd M.Out) (i : RaftInput M.Cmd)
        → IsSoundNode nodes me s → IsSoundNode nodes me ((raft nodes m).input me s i).state }
    ensures message { (nodes me from : ℕ) (m : MachineMeaning M.State M.Cmd M.Out) (s : RaftView M.State M.Cmd M.Out)
        (message : RaftMsg M.Cmd)
        → IsSoundNode nodes me s → from < nodes → IsInRange message
        → IsSoundNode nodes me ((raft nodes m).message me s from message).state }
    ensures timeout { (nodes me : ℕ) (m : MachineMeaning M.State M.Cmd M.Out) (s : RaftView M.State M.Cmd M.Out)
        → IsSoundNode nodes me s → IsSoundNode nodes me ((raft nodes m).timeout me s).state }
{}

/// What a sound node sends has its term and the end of its entries in range, so that without forged messages
/// all have.
pub fn sends_are_in_range<M: Machine>()
    ensures input { (nodes me : ℕ) (m : MachineMeaning M.State M.Cmd M.Out) (s : RaftView M.State M.Cmd M.Out) (i : RaftInput M.Cmd)
        → IsSoundNode nodes me s → AreInRange ((raft nodes m).input me s i).sends }
    ensures message { (nodes me from : ℕ) (m : MachineMeaning M.State M.Cmd M.Out) (s : RaftView M.State M.Cmd M.Out)
        (message : RaftMsg M.Cmd)
        → IsSoundNode nodes me s → from < nodes → IsInRange message → AreInRange ((raft nodes m).message me s from message).sends }
    ensures timeout { (nodes me : ℕ) (m : MachineMeaning M.State M.Cmd M.Out) (s : RaftView M.State M.Cmd M.Out)
        → IsSoundNode nodes me s → AreInRange ((raft nodes m).timeout me s).sends }
{}
