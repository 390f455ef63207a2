ghost use Rattle.std.specs.Prelude.{◌≡◌, ◌∷◌, [], None, Some, codes, length};
ghost use Rattle.snap_state.specs.States.{store_pairs};
ghost use Rattle.snap_state.specs.Tables.{at_most};

/// The pairs of a store: how many, and each with its key and its value, the keys in order.
#[tactic(auto, unfolding(wire_fields::specs::Bytes::number_bytes, wire_fields::specs::Bytes::number_in, wire_fields::specs::Bytes::has_bytes, wire_fields::specs::Bytes::read_number))]
pub fn worked_stores()
    ensures none { store_pairs.spell [] ≡ 0 ∷ 0 ∷ 0 ∷ 0 ∷ [] }
    ensures one { store_pairs.spell ((codes "a", codes "x") ∷ []) ≡ 0 ∷ 0 ∷ 0 ∷ 1 ∷ 1 ∷ 97 ∷ 0 ∷ 1 ∷ 120 ∷ [] }
    ensures read_with_the_rest { store_pairs.read (0 ∷ 0 ∷ 0 ∷ 1 ∷ 1 ∷ 97 ∷ 0 ∷ 1 ∷ 120 ∷ 9 ∷ []) ≡ Some ((codes "a", codes "x") ∷ [], 9 ∷ []) }
    ensures one_of_two { store_pairs.read (0 ∷ 0 ∷ 0 ∷ 2 ∷ 1 ∷ 97 ∷ 0 ∷ 1 ∷ 120 ∷ []) ≡ None }
    ensures not_in_order { store_pairs.read (0 ∷ 0 ∷ 0 ∷ 2 ∷ 1 ∷ 98 ∷ 0 ∷ 1 ∷ 120 ∷ 1 ∷ 97 ∷ 0 ∷ 1 ∷ 120 ∷ []) ≡ None }
    ensures not_twice { store_pairs.read
        (0 ∷ 0 ∷ 0 ∷ 2 ∷ 1 ∷ 97 ∷ 0 ∷ 1 ∷ 120 ∷ 1 ∷ 97 ∷ 0 ∷ 1 ∷ 120 ∷ []) ≡ None }
    ensures not_over_the_count { (at_most length 0 store_pairs).read (0 ∷ 0 ∷ 0 ∷ 1 ∷ 1 ∷ 97 ∷ 0 ∷ 1 ∷ 120 ∷ []) ≡ None }
{}
