ghost use Rattle.std.specs.Prelude.{◌≡◌, [], ◌∷◌, Some};
ghost use Rattle.linearizability.specs.Examples.{asks, put, put_at, say_full, tell, tell_at, turn_away};
ghost use Rattle.linearizability.specs.Linearizable.{IsLinearizable, beside, told_since, up_to, with_outputs};
ghost use Rattle.vst_base.specs.Examples.{counter};

/// What one machine that adds, and answers with the sum before, explains, and what it doesn't.
pub fn worked_orders()
    ensures nothing { IsLinearizable counter [] [] }
    ensures one { IsLinearizable counter (asks 7 1 5 ∷ []) (put (asks 7 1 5) ∷ tell 7 1 0 ∷ []) }
    ensures one_behind_another { IsLinearizable counter (asks 7 1 5 ∷ asks 9 1 3 ∷ []) (put (asks 7 1 5) ∷ tell 7 1 0 ∷ put (asks 9 1 3) ∷ tell 9 1 5 ∷ []) }
    ensures two { IsLinearizable counter (asks 9 1 3 ∷ asks 7 1 5 ∷ []) (put (asks 7 1 5) ∷ put (asks 9 1 3) ∷ tell 9 1 0 ∷ tell 7 1 3 ∷ []) }
    ensures two_of_one_client { IsLinearizable counter (asks 7 1 5 ∷ asks 7 2 3 ∷ []) (put (asks 7 1 5) ∷ tell 7 1 0 ∷ put (asks 7 2 3) ∷ tell 7 2 5 ∷ []) }
    ensures told_in_another_order { IsLinearizable counter (asks 9 1 3 ∷ asks 7 1 5 ∷ []) (put (asks 7 1 5) ∷ put (asks 9 1 3) ∷ tell 7 1 3 ∷ tell 9 1 0 ∷ []) }
    ensures told_again { IsLinearizable counter (asks 7 1 5 ∷ []) (put (asks 7 1 5) ∷ put (asks 7 1 5) ∷ tell 7 1 0 ∷ tell 7 1 0 ∷ []) }
    ensures told_again_at_another_node { IsLinearizable counter (asks 7 1 5 ∷ []) (put (asks 7 1 5) ∷ put_at 1 (asks 7 1 5) ∷ tell 7 1 0 ∷ tell_at 1 7 1 0 ∷ []) }
    ensures told_again_whatever_the_command { IsLinearizable counter (asks 7 1 5 ∷ []) (put (asks 7 1 5) ∷ tell 7 1 0 ∷ put (asks 7 1 6) ∷ tell 7 1 0 ∷ []) }
    ensures at_another_node { IsLinearizable counter (asks 7 1 5 ∷ []) (put_at 2 (asks 7 1 5) ∷ tell_at 1 7 1 0 ∷ []) }
    ensures not_told_yet { IsLinearizable counter (asks 7 1 5 ∷ []) (put (asks 7 1 5) ∷ []) }
    ensures not_taken_yet { IsLinearizable counter [] (put (asks 7 1 5) ∷ []) }
    ensures turned_away { IsLinearizable counter [] (put (asks 7 1 5) ∷ turn_away 7 1 ∷ []) }
    ensures full { IsLinearizable counter [] (put (asks 7 1 5) ∷ say_full 7 1 ∷ []) }

    ensures wrong_order { IsLinearizable counter (asks 7 1 5 ∷ asks 9 1 3 ∷ []) (put (asks 7 1 5) ∷ put (asks 9 1 3) ∷ tell 9 1 0 ∷ tell 7 1 3 ∷ []) → ⊥ }
    ensures another_output_of_one_client { IsLinearizable counter (asks 7 1 5 ∷ asks 7 2 3 ∷ []) (put (asks 7 1 5) ∷ tell 7 1 0 ∷ put (asks 7 2 3) ∷ tell 7 2 0 ∷ []) → ⊥ }
    ensures a_pair_twice { IsLinearizable counter (asks 7 1 5 ∷ asks 7 1 5 ∷ []) (put (asks 7 1 5) ∷ put (asks 7 1 5) ∷ []) → ⊥ }
    ensures a_pair_twice_with_two_commands { IsLinearizable counter (asks 7 1 5 ∷ asks 9 1 3 ∷ asks 7 1 6 ∷ []) (put (asks 7 1 5) ∷ put (asks 7 1 6) ∷ put (asks 9 1 3) ∷ []) → ⊥ }
    ensures not_put_in { IsLinearizable counter (asks 7 1 5 ∷ []) [] → ⊥ }
    ensures another_command { IsLinearizable counter (asks 7 1 5 ∷ []) (put (asks 7 1 6) ∷ tell 7 1 0 ∷ []) → ⊥ }
    ensures another_output { IsLinearizable counter (asks 7 1 5 ∷ []) (put (asks 7 1 5) ∷ tell 7 1 1 ∷ []) → ⊥ }
    ensures another_output_the_second_time { IsLinearizable counter (asks 7 1 5 ∷ []) (put (asks 7 1 5) ∷ put_at 1 (asks 7 1 5) ∷ tell 7 1 0 ∷ tell_at 1 7 1 5 ∷ []) → ⊥ }
    ensures the_later_command { IsLinearizable counter (asks 7 1 6 ∷ []) (put (asks 7 1 5) ∷ tell 7 1 0 ∷ put (asks 7 1 6) ∷ tell 7 1 0 ∷ []) → ⊥ }
    ensures told_but_not_taken { IsLinearizable counter [] (put (asks 7 1 5) ∷ tell 7 1 0 ∷ []) → ⊥ }
    ensures told_too_early { IsLinearizable counter (asks 7 1 5 ∷ []) (tell 7 1 0 ∷ put (asks 7 1 5) ∷ []) → ⊥ }
    ensures one_before_it_comes_later { IsLinearizable counter (asks 9 1 3 ∷ asks 7 1 5 ∷ []) (put (asks 7 1 5) ∷ tell 7 1 3 ∷ put (asks 9 1 3) ∷ []) → ⊥ }
    ensures one_before_it_is_asked_and_told_later { IsLinearizable counter (asks 8 1 3 ∷ asks 7 1 5 ∷ []) (put (asks 7 1 5) ∷ tell 7 1 3 ∷ put_at 1 (asks 8 1 3) ∷ tell_at 1 8 1 0 ∷ []) → ⊥ }
{}

/// The parts that it is made of.
pub fn worked_parts()
    ensures told_with_what_was_before { told_since [] (put (asks 7 1 5) ∷ tell 7 1 0 ∷ turn_away 9 1 ∷ []) ≡ record { client = 7; request = 1; output = 0; before = put (asks 7 1 5) ∷ [] } ∷ [] }
    ensures up_to_a_request { up_to 7 1 (asks 9 1 3 ∷ asks 7 1 5 ∷ asks 9 2 1 ∷ []) ≡ asks 9 1 3 ∷ asks 7 1 5 ∷ [] }
    ensures outputs { with_outputs counter (asks 9 1 3 ∷ asks 7 1 5 ∷ asks 9 2 1 ∷ []) ≡ (asks 9 1 3, 0) ∷ (asks 7 1 5, 3) ∷ (asks 9 2 1, 8) ∷ [] }
    ensures by_client_and_request { beside 9 2 (with_outputs counter (asks 9 1 3 ∷ asks 7 1 5 ∷ asks 9 2 1 ∷ [])) ≡ Some 8 }
{}
