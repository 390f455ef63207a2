ghost use Rattle.std.specs.Prelude.{◌≡◌, ℕ, [], ◌∷◌, true, false, Some, None, is_some, count_by, map};
ghost use Rattle.flight_index.specs.Flights.{goes_to, goes_up, is_within, numbers_of};
ghost use Rattle.flight_index.specs.Turns.{between, firsts, goes_between, is_first, queue_of, turn_of};

/// Which packets are in flight, of a few.
pub fn worked()
    ensures in_flight { numbers_of (is_some {T = ℕ}) 0 (Some 1 ∷ None ∷ Some 0 ∷ Some 1 ∷ []) ≡ 0 ∷ 2 ∷ 3 ∷ [] }
    ensures none_in_flight { numbers_of (is_some {T = ℕ}) 0 (None ∷ None ∷ []) ≡ [] }
    ensures counted_on { numbers_of (is_some {T = ℕ}) 7 (None ∷ Some 2 ∷ []) ≡ 8 ∷ [] }
    ensures to_one_that_is_up { numbers_of (goes_up (true ∷ false ∷ [])) 0 (Some 1 ∷ None ∷ Some 0 ∷ Some 1 ∷ []) ≡ 2 ∷ [] }
    ensures to_either { numbers_of (goes_up (true ∷ true ∷ [])) 0 (Some 1 ∷ None ∷ Some 0 ∷ Some 1 ∷ []) ≡ 0 ∷ 2 ∷ 3 ∷ [] }
    ensures to_one_node { count_by (goes_to 1) (Some 1 ∷ None ∷ Some 0 ∷ Some 1 ∷ []) ≡ 2 }
    ensures last_node { is_within (Some 8) ≡ true }
    ensures no_such_node { is_within (Some 9) ≡ false }
{}

/// Which packets are the first in flight of their source and destination, of a few.
pub fn worked_turns()
    ensures one_lane { firsts (Some (1, 0) ∷ Some (1, 0) ∷ Some (1, 0) ∷ []) ≡ 0 ∷ [] }
    ensures the_next { firsts (None ∷ Some (1, 0) ∷ Some (1, 0) ∷ []) ≡ 1 ∷ [] }
    ensures each_lane { firsts (Some (1, 0) ∷ Some (2, 0) ∷ Some (1, 0) ∷ Some (0, 1) ∷ Some (2, 0) ∷ []) ≡ 0 ∷ 1 ∷ 3 ∷ [] }
    ensures nothing { firsts (None ∷ None ∷ []) ≡ [] }
    ensures where_it_goes { map (turn_of (Some (1, 0) ∷ Some (1, 0) ∷ None ∷ [])) (0 ∷ 1 ∷ 2 ∷ 3 ∷ []) ≡ Some 0 ∷ None ∷ None ∷ None ∷ [] }
    ensures whether_it_is { map (is_first (Some (1, 0) ∷ Some (1, 0) ∷ Some (1, 2) ∷ [])) (0 ∷ 1 ∷ 2 ∷ []) ≡ true ∷ false ∷ true ∷ [] }
    ensures in_flight { between (1, 0) (Some (1, 0) ∷ Some (2, 0) ∷ None ∷ Some (1, 0) ∷ []) ≡ 0 ∷ 3 ∷ [] }
    ensures same_ends { map (goes_between (1, 0)) (Some (1, 0) ∷ Some (0, 1) ∷ Some (1, 1) ∷ None ∷ []) ≡ true ∷ false ∷ false ∷ false ∷ [] }
    ensures queues { map (queue_of 2) (0 ∷ 8 ∷ []) ≡ 18 ∷ 26 ∷ [] }
{}
