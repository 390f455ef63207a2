ghost use Rattle.std.specs.Prelude.{◌≡◌, [], ◌∷◌, None, Some, codes};
ghost use Rattle.claim_verdicts.specs.Comparing.{IsWithin, difference_after};
ghost use Rattle.claim_verdicts.specs.declared.comparison.Comparison.TheVariants.{DiffersAt, SameSoFar};

/// How lines compare with those that are claimed, of which some came before, on examples.
pub fn worked_comparisons()
    ensures same { difference_after (SameSoFar 1) (codes "a" ∷ codes "b" ∷ []) (codes "b" ∷ []) ≡ None }
    ensures same_from_the_first { difference_after (SameSoFar 0) (codes "a" ∷ []) (codes "a" ∷ []) ≡ None }
    ensures another { difference_after (SameSoFar 1) (codes "a" ∷ codes "b" ∷ []) (codes "a" ∷ []) ≡ Some 1 }
    ensures a_line_is_missing { difference_after (SameSoFar 1) (codes "a" ∷ codes "b" ∷ []) [] ≡ Some 1 }
    ensures a_line_too_many { difference_after (SameSoFar 2) (codes "a" ∷ codes "b" ∷ []) (codes "c" ∷ []) ≡ Some 2 }
    ensures differed_before { difference_after (DiffersAt 0) (codes "a" ∷ codes "b" ∷ []) (codes "b" ∷ []) ≡ Some 0 }
    ensures after_the_last { (IsWithin 2 (SameSoFar 2)) × (IsWithin 2 (DiffersAt 2)) }
    ensures beyond_it { (IsWithin 2 (SameSoFar 3) → ⊥) × (IsWithin 2 (DiffersAt 3) → ⊥) }
{}
