ghost use Rattle.std.specs.Prelude.{◌≡◌, ◌≢◌, [], ◌∷◌, Some, None};
ghost use Rattle.lanes.specs.Lanes.{lane, last_at, previous_of};

/// The packets before a few, on their lanes.
pub fn worked()
    ensures last { last_at (1, 0) ((1, 0) ∷ (2, 0) ∷ (1, 0) ∷ (1, 2) ∷ []) ≡ Some 2 }
    ensures only { last_at (2, 0) ((1, 0) ∷ (2, 0) ∷ (1, 0) ∷ (1, 2) ∷ []) ≡ Some 1 }
    ensures none_of_it { last_at (0, 1) ((1, 0) ∷ (2, 0) ∷ (1, 0) ∷ (1, 2) ∷ []) ≡ None }
    ensures none_of_nothing { last_at (1, 0) [] ≡ None }
    ensures third { previous_of ((1, 0) ∷ (2, 0) ∷ (1, 0) ∷ (1, 2) ∷ (1, 0) ∷ []) 4 ≡ Some 2 }
    ensures second { previous_of ((1, 0) ∷ (2, 0) ∷ (1, 0) ∷ (1, 2) ∷ (1, 0) ∷ []) 2 ≡ Some 0 }
    ensures first { previous_of ((1, 0) ∷ (2, 0) ∷ (1, 0) ∷ (1, 2) ∷ (1, 0) ∷ []) 0 ≡ None }
    ensures first_from_another { previous_of ((1, 0) ∷ (2, 0) ∷ (1, 0) ∷ (1, 2) ∷ (1, 0) ∷ []) 1 ≡ None }
    ensures first_to_another { previous_of ((1, 0) ∷ (2, 0) ∷ (1, 0) ∷ (1, 2) ∷ (1, 0) ∷ []) 3 ≡ None }
    ensures no_such_packet { previous_of ((1, 0) ∷ (2, 0) ∷ (1, 0) ∷ (1, 2) ∷ (1, 0) ∷ []) 9 ≡ None }
    ensures back_is_another_lane { previous_of ((1, 2) ∷ (2, 1) ∷ []) 1 ≡ None }
    ensures not_the_first_of_it { previous_of ((1, 0) ∷ (2, 0) ∷ (1, 0) ∷ (1, 2) ∷ (1, 0) ∷ []) 4 ≢ Some 0 }
    ensures not_by_destination_alone { previous_of ((1, 0) ∷ (2, 0) ∷ []) 1 ≢ Some 0 }
    ensures not_by_source_alone { previous_of ((1, 0) ∷ (1, 2) ∷ []) 1 ≢ Some 0 }
    ensures least_lane { lane 0 0 ≡ 0 }
    ensures lanes_from_0 { lane 0 255 ≡ 255 }
    ensures lanes_from_1 { lane 1 0 ≡ 256 }
    ensures greatest_lane { lane 255 255 ≡ 65535 }
    ensures not_itself { last_at (1, 0) ((1, 0) ∷ (1, 0) ∷ []) ≢ Some 2 }
{}
