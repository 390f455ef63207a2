ghost use Rattle.std.specs.Prelude.{◌≡◌, ◌≢◌, ℕ, List, Some, All};
ghost use Rattle.std.specs.FinMap.{get};
ghost use Rattle.lock_table.specs.Table.{Holders, table};
ghost use Rattle.vst_base.specs.Machines.{state_after};

use crate::TableCmd;

/// Whatever else is asked, a held name stays with its owner until the owner releases it.
#[tactic(auto, using(crate::proofs::Keeping::commands_keep))]
pub fn names_stay_with_their_owners()
    ensures { (m : Holders) (cs : List TableCmd) (l o : List ℕ) → get m l ≡ Some o → All (λ c. c ≢ TableCmd.Release l o) cs
        → get (state_after table m cs) l ≡ Some o }
{}
