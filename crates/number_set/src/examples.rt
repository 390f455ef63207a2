ghost use Rattle.std.specs.Prelude.{◌≡◌, ◌+◌, ◌^◌, [], ◌∷◌};
ghost use Rattle.std.specs.FinSet as set;
ghost use Rattle.number_set.specs.Marked.{IsMarked, greatest};
ghost use Rattle.number_set.specs.Members.{numbers_below};

/// Marks of a few sets, and what is none.
pub fn worked()
    ensures nothing { IsMarked set.empty 0 [] }
    ensures in_order { IsMarked (set.insert (set.insert set.empty 0) 1) 2 [] }
    ensures early { IsMarked (set.insert set.empty 1) 0 (1 ∷ []) }
    ensures closed { IsMarked (set.insert (set.insert set.empty 1) 0) 2 [] }
    ensures apart { IsMarked (set.insert (set.insert (set.insert set.empty 7) 0) 4) 1 (4 ∷ 7 ∷ []) }
    ensures all_but_one { IsMarked (numbers_below greatest) greatest [] }
    ensures all { IsMarked (numbers_below (2 ^ 64)) greatest (greatest ∷ []) }
    ensures closed_too_early { IsMarked (set.insert (set.insert set.empty 0) 2) 3 [] → ⊥ }
    ensures one_too_far { IsMarked (set.insert set.empty 0) 2 [] → ⊥ }
    ensures one_too_low { IsMarked (set.insert set.empty 0) 0 (0 ∷ []) → ⊥ }
    ensures left_out { IsMarked (set.insert set.empty 1) 0 [] → ⊥ }
    ensures not_there { IsMarked (set.insert set.empty 1) 0 (1 ∷ 2 ∷ []) → ⊥ }
    ensures twice { IsMarked (set.insert set.empty 1) 0 (1 ∷ 1 ∷ []) → ⊥ }
    ensures out_of_order { IsMarked (set.insert (set.insert set.empty 7) 4) 0 (7 ∷ 4 ∷ []) → ⊥ }
{}
