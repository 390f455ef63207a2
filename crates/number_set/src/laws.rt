ghost use Rattle.std.specs.Prelude.{◌≡◌, ℕ, List};
ghost use Rattle.std.specs.FinSet.{FinSet};
ghost use Rattle.std.specs.Ordering.{nat_cmp};
ghost use Rattle.number_set.specs.Marked.{IsMarked};

/// A set has one mark, and one list of what is above it.
pub fn gaps_are_one()
    ensures mark { (s : FinSet nat_cmp) (m n : ℕ) (xs ys : List ℕ) → IsMarked s m xs → IsMarked s n ys → m ≡ n }
    ensures above { (s : FinSet nat_cmp) (m n : ℕ) (xs ys : List ℕ) → IsMarked s m xs → IsMarked s n ys → xs ≡ ys }
{}
