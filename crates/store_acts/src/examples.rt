ghost use Rattle.std.specs.Prelude.{◌≡◌, ℕ, true, false, [], ◌∷◌, None, Some};
ghost use Rattle.std.specs.Global.{Vec};
ghost use Rattle.disk.specs.Acts.{Cut, Synced, Wrote};
ghost use Rattle.store_acts.specs.Examples.{both_taken_back, has_range, reaches_so, takes_back};
ghost use Rattle.store_acts.specs.StoreActs.{act_of, acts_of};

use crate::{AreaId, StoreAct};

/// Acts as the disk's model has them.
pub fn worked_acts()
    ensures write { (bytes : Vec ℕ) → act_of (StoreAct.Write AreaId.Slot1 39 bytes) ≡ Wrote 1 39 bytes.items }
    ensures cut { act_of (StoreAct.Cut AreaId.Slot0 3) ≡ Cut 0 3 }
    ensures sync { act_of (StoreAct.Sync AreaId.Selector) ≡ Synced 2 }
    ensures in_order { acts_of (StoreAct.Cut AreaId.Slot1 2 ∷ StoreAct.Sync AreaId.Slot1 ∷ []) ≡ Cut 1 2 ∷ Synced 1 ∷ [] }
{}

/// Pending acts that are taken back: a write over bytes, one past the end, a cut that shortens and one that lengthens, and two acts.
pub fn worked_undos()
    ensures a_write { takes_back 4 1 (2 ∷ 3 ∷ []) (1 ∷ 9 ∷ 9 ∷ 4 ∷ []) (1 ∷ 2 ∷ 3 ∷ 4 ∷ []) }
    ensures a_write_past_the_end { takes_back 1 3 [] (1 ∷ 0 ∷ 0 ∷ 9 ∷ []) (1 ∷ []) }
    ensures a_cut { takes_back 3 1 (2 ∷ 3 ∷ []) (1 ∷ []) (1 ∷ 2 ∷ 3 ∷ []) }
    ensures a_cut_that_adds { takes_back 1 3 [] (1 ∷ 0 ∷ 0 ∷ []) (1 ∷ []) }
    ensures two { both_taken_back (1 ∷ 9 ∷ []) (1 ∷ 2 ∷ 3 ∷ []) }
    ensures range { has_range 3 (Some 2) ((3, 2) ∷ []) }
    ensures no_range { has_range 3 None [] }
    ensures in_range { reaches_so 9 3 (Some 2) 4 true }
    ensures behind_it { reaches_so 9 3 (Some 2) 5 false }
    ensures past_the_old_end { reaches_so 9 3 None 9 true }
{}
