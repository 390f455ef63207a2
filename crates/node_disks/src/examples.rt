ghost use Rattle.std.specs.Prelude.{◌≡◌, ℕ, [], ◌∷◌, None, Some};
ghost use Rattle.disk.specs.Acts.{Cut, Synced};
ghost use Rattle.node_disks.specs.Names.{who_in};
ghost use Rattle.node_disks.specs.TrailDisks.{bringing, left_by_word};
ghost use Rattle.node_disks.specs.Examples.{after_a_write, left};

use vst_base::StackId;

/// Which acts of a save bring what is known anew: the last alone.
pub fn worked_acts()
    ensures none { bringing {W = ℕ} 7 [] ≡ [] }
    ensures one { bringing {W = ℕ} 7 (Synced 0 ∷ []) ≡ (Synced 0, Some 7) ∷ [] }
    ensures the_last { bringing {W = ℕ} 7 (Cut 1 2 ∷ Synced 1 ∷ []) ≡ (Cut 1 2, None) ∷ (Synced 1, Some 7) ∷ [] }
{}

/// Which node of a cluster a number names: node 0 where it is out of range.
pub fn worked_names()
    ensures in_range { (who_in StackId.KvRaft 3 [] 2).me ≡ 2 }
    ensures out_of_range { (who_in StackId.KvRaft 3 [] 3).me ≡ 0 }
    ensures nodes { (who_in StackId.KvRaft 3 [] 3).nodes ≡ 3 }
{}

/// What a word leaves of an area on which a write is pending.
pub fn worked_words()
    ensures nothing_of_it { left_by_word after_a_write 4 ≡ left [] }
    ensures as_read { left_by_word after_a_write 1 ≡ left (5 ∷ []) }
    ensures torn { left_by_word after_a_write 2 ≡ left (255 ∷ []) }
    ensures torn_to_zeros { left_by_word after_a_write 7 ≡ left (0 ∷ []) }
{}
