ghost use Rattle.std.specs.Prelude.{List};
ghost use Rattle.net_semantics.specs.BelowPb.{IsExplainedBy};
ghost use Rattle.net_semantics.specs.Runs.{IsAllowed, no_recovery, run, trace};
ghost use Rattle.primary_backup.specs.Backup.{Backed, primary_backup};
ghost use Rattle.primary_backup.specs.Followed.{AreFollowing};
ghost use Rattle.vst_base.specs.Machines.{MachineMeaning};
ghost use Rattle.vst_base.specs.declared.step.Step.{Step};

use vst_base::{Machine, Net};

/// On each run that a bag allows, one machine explains what clients see; and the primary's machine has taken the inputs that were
/// replied to, the backup's these or one more. It holds of every record of a machine over the types of `M`, and not of the
/// meaning of `M` alone.
pub fn one_machine_explains<M: Machine>()
    ensures explained { (m : MachineMeaning M.State M.Cmd M.Out) (ss : List (Step M.Cmd))
        → IsAllowed Net.Bag (primary_backup m) (no_recovery {S = Backed M.State M.Cmd}) ss
        → IsExplainedBy m (trace (primary_backup m) (no_recovery {S = Backed M.State M.Cmd}) ss) }
    ensures following { (m : MachineMeaning M.State M.Cmd M.Out) (ss : List (Step M.Cmd))
        → IsAllowed Net.Bag (primary_backup m) (no_recovery {S = Backed M.State M.Cmd}) ss
        → AreFollowing m (trace (primary_backup m) (no_recovery {S = Backed M.State M.Cmd}) ss)
        (run (primary_backup m) (no_recovery {S = Backed M.State M.Cmd}) ss).state }
{}
