ghost use Rattle.std.specs.Prelude.{ℕ, ◌≡◌, ◌+◌, ◌<◌, List, [], ◌∷◌, length, replicate};
ghost use Rattle.handler_trait.specs.Echo.{echo, echo_recovery};
ghost use Rattle.handler_trait.specs.Examples.{effect, gathered};
ghost use Rattle.handler_trait.specs.Handling.{AreSentBelow, Does, IsModest};
ghost use Rattle.handler_trait.specs.declared.handlers.TheConstants.{MAX_OUTPUTS};

/// What events gather and are bounded by, and what is not so.
pub fn worked()
    ensures an_input_told { (echo 3).input 1 7 5 ≡ effect 7 (5 ∷ []) ((0, 5) ∷ []) }
    ensures a_message_heard { (echo 3).message 0 7 2 5 ≡ effect 205 (5 ∷ []) [] }
    ensures a_timer { (echo 3).timeout 2 7 ≡ effect 40 (40 ∷ []) ((2, 9) ∷ []) }
    ensures what_is_kept { (echo_recovery.keep 11 ≡ 5) × (echo_recovery.reboot 2 5 ≡ 7) }

    ensures gains_in_order { Does ((echo 3).input 1 7 5) 7 (gathered (4 ∷ []) ((1, 6) ∷ [])) (gathered (4 ∷ 5 ∷ []) ((1, 6) ∷ (0, 5) ∷ [])) }
    ensures another_state { ¬ Does ((echo 3).input 1 7 5) 5 (gathered [] []) (gathered (5 ∷ []) ((0, 5) ∷ [])) }
    ensures an_output_lost { ¬ Does ((echo 3).input 1 7 5) 7 (gathered (4 ∷ []) []) (gathered (5 ∷ []) ((0, 5) ∷ [])) }
    ensures a_packet_lost { ¬ Does ((echo 3).input 1 7 5) 7 (gathered [] []) (gathered (5 ∷ []) []) }

    ensures a_packet_to_the_last_node { AreSentBelow {M = ℕ} 2 ((1, 5) ∷ (0, 6) ∷ []) }
    ensures no_packet_past_it { ¬ AreSentBelow {M = ℕ} 2 ((0, 6) ∷ (2, 5) ∷ []) }
    ensures nothing_sent { AreSentBelow {M = ℕ} 0 [] }

    ensures as_many_packets { IsModest 2 8 (λ s. s < 100) (λ s. s) 0 (effect 8 [] (replicate 8 (1, 5))) }
    ensures one_packet_more { ¬ IsModest 2 8 (λ s. s < 100) (λ s. s) 0 (effect 8 [] (replicate 9 (1, 5))) }
    ensures fewer_allowed { ¬ IsModest 2 7 (λ s. s < 100) (λ s. s) 0 (effect 8 [] (replicate 8 (1, 5))) }
    ensures spends_nine { ¬ IsModest 2 8 (λ s. s < 100) (λ s. s) 3 (effect 12 [] []) }
    ensures as_many_outputs { (os : List ℕ) → length os ≡ MAX_OUTPUTS → IsModest 2 0 (λ s. s < 100) (λ s. s) 0 (effect 0 os []) }
    ensures no_sound_state { (os : List ℕ) → length os ≡ MAX_OUTPUTS + 1 → IsModest 2 0 (λ s. s < 100) (λ s. 0) 0 (effect 100 os []) }
    ensures one_output_more { (os : List ℕ) → length os ≡ MAX_OUTPUTS + 1 → ¬ IsModest 2 0 (λ s. s < 100) (λ s. s) 0 (effect 0 os []) }
    ensures outputs_for_what_was_spent { (os : List ℕ) → length os ≡ MAX_OUTPUTS + 3 → IsModest 2 0 (λ s. s < 100) (λ s. s) 3 (effect 0 os []) }
    ensures more_than_was_spent { (os : List ℕ) → length os ≡ MAX_OUTPUTS + 4 → ¬ IsModest 2 0 (λ s. s < 100) (λ s. s) 3 (effect 0 os []) }
{}
