ghost use Rattle.std.specs.Prelude.{◌≡◌, ℕ, true, false, [], ◌∷◌, Some, None};
ghost use Rattle.retry_observer.specs.Observed.{image_of_step, last_carries, looked_at};
ghost use Rattle.retry_observer.specs.Places.{ComeAfter, IsKnown, IsNew, carried_at, named, numbers_at, numbers_in, up_to};
ghost use Rattle.retry_xform.specs.Examples.{kept, keeping, only_at, packet};

use vst_base::{RetryMsg, Step};

/// What a few packets carry, which of them are new data, and what steps are to the handlers within.
pub fn worked()
    ensures by_number { numbers_in {M = ℕ} (packet 1 0 (RetryMsg.Data 4 9) ∷ packet 0 1 (RetryMsg.Ack 4) ∷ [])
        ≡ (1, Some 4) ∷ (0, None) ∷ [] }
    ensures each_once { named ((1, Some 0) ∷ (2, Some 0) ∷ (1, Some 0) ∷ (0, None) ∷ (1, Some 1) ∷ []) ≡ (1, 0) ∷ (2, 0) ∷ (1, 1) ∷ [] }
    ensures of_one_node { numbers_at 1 ((1, 0) ∷ (2, 0) ∷ (1, 1) ∷ []) ≡ 0 ∷ 1 ∷ [] }
    ensures of_no_node { numbers_at 0 ((1, 0) ∷ (2, 0) ∷ (1, 1) ∷ []) ≡ [] }
    ensures so_many { up_to 3 ≡ 0 ∷ 1 ∷ 2 ∷ [] }
    ensures first { carried_at ((1, Some 0) ∷ (2, Some 0) ∷ (1, Some 0) ∷ (0, None) ∷ (1, Some 1) ∷ []) 0 ≡ Some 0 }
    ensures of_another_node { carried_at ((1, Some 0) ∷ (2, Some 0) ∷ (1, Some 0) ∷ (0, None) ∷ (1, Some 1) ∷ []) 1 ≡ Some 1 }
    ensures sent_again { carried_at ((1, Some 0) ∷ (2, Some 0) ∷ (1, Some 0) ∷ (0, None) ∷ (1, Some 1) ∷ []) 2 ≡ Some 0 }
    ensures acknowledgement { carried_at ((1, Some 0) ∷ (2, Some 0) ∷ (1, Some 0) ∷ (0, None) ∷ (1, Some 1) ∷ []) 3 ≡ None }
    ensures next { carried_at ((1, Some 0) ∷ (2, Some 0) ∷ (1, Some 0) ∷ (0, None) ∷ (1, Some 1) ∷ []) 4 ≡ Some 2 }
    ensures not_sent { carried_at ((1, Some 0) ∷ (2, Some 0) ∷ (1, Some 0) ∷ (0, None) ∷ (1, Some 1) ∷ []) 5 ≡ None }

    ensures new { IsNew ((1, Some 0) ∷ (2, Some 0) ∷ []) 1 (Some 1) }
    ensures new_of_another_node { IsNew ((1, Some 0) ∷ (1, Some 1) ∷ []) 2 (Some 0) }
    ensures not_sent_again { ¬ IsNew ((1, Some 0) ∷ (2, Some 0) ∷ []) 1 (Some 0) }
    ensures not_too_early { ¬ IsNew ((1, Some 0) ∷ (2, Some 0) ∷ []) 1 (Some 2) }
    ensures no_acknowledgement { ¬ IsNew ((1, Some 0) ∷ (2, Some 0) ∷ []) 1 None }
    ensures known { IsKnown (Some 1) ((1, Some 0) ∷ (2, Some 0) ∷ []) 2 (Some 0) }
    ensures acknowledges { IsKnown None ((1, Some 0) ∷ (2, Some 0) ∷ []) 0 None }
    ensures carries_another { ¬ IsKnown (Some 0) ((1, Some 0) ∷ (2, Some 0) ∷ []) 2 (Some 0) }
    ensures no_data { ¬ IsKnown (Some 0) ((1, Some 0) ∷ (2, Some 0) ∷ []) 0 None }
    ensures not_known { ¬ IsKnown None ((1, Some 0) ∷ (2, Some 0) ∷ []) 1 (Some 1) }
    ensures last_is_known { ComeAfter 1 true (Some 0) ((1, Some 0) ∷ (1, Some 1) ∷ (1, Some 0) ∷ []) }
    ensures last_is_not_new { ¬ ComeAfter 1 false None ((1, Some 0) ∷ (1, Some 1) ∷ (1, Some 0) ∷ []) }
    ensures not_the_one_before { ¬ ComeAfter 1 true (Some 0) ((1, Some 0) ∷ (1, Some 0) ∷ (1, Some 0) ∷ []) }

    ensures delivers_data { looked_at {I = ℕ} (keeping (only_at 1 [])) (Step.Deliver 1) ≡ Some 1 }
    ensures delivers_nothing { looked_at {I = ℕ} (keeping (only_at 1 [])) (Step.Deliver 2) ≡ None }
    ensures copies { looked_at {I = ℕ} (keeping (only_at 1 [])) (Step.Dup 1) ≡ None }
    ensures ticks { looked_at {I = ℕ} (keeping (only_at 2 (kept 0 0 6 ∷ []))) (Step.Tick 2) ≡ Some 1 }
    ensures ticks_with_nothing { looked_at {I = ℕ} (keeping (only_at 2 (kept 0 0 6 ∷ []))) (Step.Tick 1) ≡ None }
    ensures takes_input { looked_at {I = ℕ} (keeping (only_at 2 (kept 0 0 6 ∷ []))) (Step.In 2 5) ≡ None }

    ensures copied_and_delivered { image_of_step {I = ℕ} (Step.Deliver 5) (Some 2) ≡ Step.Dup 2 ∷ Step.Deliver 2 ∷ [] }
    ensures left_out { image_of_step {I = ℕ} (Step.Deliver 5) None ≡ [] }
    ensures tick_stays { image_of_step {I = ℕ} (Step.Tick 1) (Some 2) ≡ Step.Tick 1 ∷ [] }
    ensures input_stays { image_of_step {I = ℕ} (Step.In 1 7) None ≡ Step.In 1 7 ∷ [] }
    ensures carries_the_same { last_carries {I = ℕ} (Step.Tick 1) (Some 2) ≡ Some 2 }
    ensures carries_nothing { last_carries {I = ℕ} (Step.Deliver 5) (Some 2) ≡ None }
{}
