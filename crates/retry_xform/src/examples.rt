ghost use Rattle.std.specs.Prelude.{◌≡◌, ℕ, true, false, [], ◌∷◌, Some, None};
ghost use Rattle.handler_trait.specs.Echo.{echo};
ghost use Rattle.net_semantics.specs.Runs.{first_refused, no_recovery, run, trace};
ghost use Rattle.retry_xform.specs.Examples.{kept, keeping, only_at, packet, within};
ghost use Rattle.retry_xform.specs.Image.{IsDeliveredOrKept, names, place_of, retried_image};
ghost use Rattle.retry_xform.specs.Keeping.{AreBelow, ArePending, Retrying, acknowledged, numbered_from, rotated};
ghost use Rattle.retry_xform.specs.KeptEntries.{all_kept, goes_to};
ghost use Rattle.retry_xform.specs.Retransmission.{retrying};

use vst_base::{Item, Net, RetryMsg, Step, StepRefusal};

/// What is kept and dropped, which packets of the run within are carried, and runs of three nodes that lose packets with their images.
pub fn worked()
    ensures consecutive { numbered_from 4 ((0, 9) ∷ (2, 8) ∷ []) ≡ kept 4 0 9 ∷ kept 5 2 8 ∷ [] }
    ensures dropped { acknowledged 0 4 (kept 4 0 9 ∷ kept 5 2 8 ∷ []) ≡ kept 5 2 8 ∷ [] }
    ensures from_another_node { acknowledged 2 4 (kept 4 0 9 ∷ kept 5 2 8 ∷ []) ≡ kept 4 0 9 ∷ kept 5 2 8 ∷ [] }
    ensures of_another_number { acknowledged 0 5 (kept 4 0 9 ∷ kept 5 2 8 ∷ []) ≡ kept 4 0 9 ∷ kept 5 2 8 ∷ [] }
    ensures to_the_end { rotated (kept 4 0 9 ∷ kept 5 2 8 ∷ kept 6 1 7 ∷ []) ≡ kept 5 2 8 ∷ kept 6 1 7 ∷ kept 4 0 9 ∷ [] }
    ensures pending { ArePending 6 3 (kept 4 0 9 ∷ kept 5 2 8 ∷ []) }
    ensures number_not_given { ¬ ArePending 5 3 (kept 4 0 9 ∷ kept 5 2 8 ∷ []) }
    ensures no_such_node { ¬ ArePending 6 2 (kept 4 0 9 ∷ kept 5 2 8 ∷ []) }
    ensures below { AreBelow 6 (kept 4 0 9 ∷ kept 5 2 8 ∷ []) }
    ensures not_below { ¬ AreBelow 5 (kept 4 0 9 ∷ kept 5 2 8 ∷ []) }
    ensures oldest_first { all_kept ((5, (2, 8)) ∷ (4, (0, 9)) ∷ []) ≡ kept 4 0 9 ∷ kept 5 2 8 ∷ [] }
    ensures to_this_node { goes_to {M = ℕ} 2 (Some (2, 8)) ≡ true }
    ensures to_another_node { goes_to {M = ℕ} 0 (Some (2, 8)) ≡ false }
    ensures to_no_node { goes_to {M = ℕ} 0 None ≡ false }

    ensures each_once { names {M = ℕ} (packet 1 0 (RetryMsg.Data 0 5) ∷ packet 2 0 (RetryMsg.Data 0 6) ∷ packet 1 0 (RetryMsg.Data 0 5) ∷ packet 0 1 (RetryMsg.Ack 0) ∷ packet 1 2 (RetryMsg.Data 1 7) ∷ [])
        ≡ (1, 0) ∷ (2, 0) ∷ (1, 1) ∷ [] }
    ensures its_place { place_of (1, 1) ((1, 0) ∷ (2, 0) ∷ (1, 1) ∷ []) ≡ Some 2 }
    ensures not_by_number_alone { place_of (2, 0) ((1, 0) ∷ (2, 0) ∷ (1, 1) ∷ []) ≡ Some 1 }
    ensures not_sent { place_of (0, 0) ((1, 0) ∷ (2, 0) ∷ (1, 1) ∷ []) ≡ None }

    ensures nothing_was_kept_before { ((retrying (echo 3)).timeout 1 (record { inner = 1; next = 0; kept = [] })).sends ≡ (1, RetryMsg.Data 0 9) ∷ [] }
    ensures the_first_is_sent_again { ((retrying (echo 3)).timeout 1 (record { inner = 1; next = 6; kept = kept 4 0 9 ∷ kept 5 2 8 ∷ [] })).sends
        ≡ (1, RetryMsg.Data 6 9) ∷ (0, RetryMsg.Data 4 9) ∷ [] }
    ensures and_goes_to_the_end { ((retrying (echo 3)).timeout 1 (record { inner = 1; next = 6; kept = kept 4 0 9 ∷ kept 5 2 8 ∷ [] })).state.kept
        ≡ kept 5 2 8 ∷ kept 6 1 9 ∷ kept 4 0 9 ∷ [] }
    ensures acknowledged_when_it_comes { ((retrying (echo 3)).message 0 (record { inner = 0; next = 0; kept = [] }) 1 (RetryMsg.Data 4 9)).sends
        ≡ (1, RetryMsg.Ack 4) ∷ [] }
    ensures and_when_it_comes_again { ((retrying (echo 3)).message 0
        ((retrying (echo 3)).message 0 (record { inner = 0; next = 0; kept = [] }) 1 (RetryMsg.Data 4 9)).state 1 (RetryMsg.Data 4 9)).sends
        ≡ (1, RetryMsg.Ack 4) ∷ [] }

    ensures loss_is_allowed { first_refused Net.Loss (retrying (echo 3)) (no_recovery {S = Retrying ℕ ℕ}) (Step.In 1 5 ∷ Step.Lose 0 ∷ Step.Tick 1 ∷ Step.Deliver 2 ∷ Step.Deliver 3 ∷ []) ≡ None }
    ensures lost_and_sent_again { retried_image (echo 3) (Step.In 1 5 ∷ Step.Lose 0 ∷ Step.Tick 1 ∷ Step.Deliver 2 ∷ Step.Deliver 3 ∷ [])
        ≡ Step.In 1 5 ∷ Step.Tick 1 ∷ Step.Dup 0 ∷ Step.Deliver 0 ∷ [] }
    ensures clients_see { trace (retrying (echo 3)) (no_recovery {S = Retrying ℕ ℕ}) (Step.In 1 5 ∷ Step.Lose 0 ∷ Step.Tick 1 ∷ Step.Deliver 2 ∷ Step.Deliver 3 ∷ [])
        ≡ Item.Input 1 5 ∷ Item.Output 1 5 ∷ Item.Output 1 40 ∷ Item.Output 0 5 ∷ [] }
    ensures still_kept { ((run (retrying (echo 3)) (no_recovery {S = Retrying ℕ ℕ}) (Step.In 1 5 ∷ Step.Lose 0 ∷ Step.Tick 1 ∷ Step.Deliver 2 ∷ Step.Deliver 3 ∷ [])).state 1).kept ≡ kept 1 1 9 ∷ [] }
    ensures comes_twice { retried_image (echo 3) (Step.In 1 5 ∷ Step.Tick 1 ∷ Step.Deliver 0 ∷ Step.Deliver 2 ∷ [])
        ≡ Step.In 1 5 ∷ Step.Tick 1 ∷ Step.Dup 0 ∷ Step.Deliver 0 ∷ Step.Dup 0 ∷ Step.Deliver 0 ∷ [] }
    ensures given_each_time { trace (retrying (echo 3)) (no_recovery {S = Retrying ℕ ℕ}) (Step.In 1 5 ∷ Step.Tick 1 ∷ Step.Deliver 0 ∷ Step.Deliver 2 ∷ [])
        ≡ Item.Input 1 5 ∷ Item.Output 1 5 ∷ Item.Output 1 40 ∷ Item.Output 0 5 ∷ Item.Output 0 5 ∷ [] }
    ensures a_copy_is_left_out { retried_image (echo 3) (Step.In 1 5 ∷ Step.Dup 0 ∷ Step.Deliver 0 ∷ Step.Deliver 0 ∷ [])
        ≡ Step.In 1 5 ∷ Step.Dup 0 ∷ Step.Deliver 0 ∷ Step.Dup 0 ∷ Step.Deliver 0 ∷ [] }
    ensures one_number_of_two_senders { retried_image (echo 3) (Step.In 1 5 ∷ Step.In 2 7 ∷ Step.Deliver 1 ∷ []) ≡ Step.In 1 5 ∷ Step.In 2 7 ∷ Step.Dup 1 ∷ Step.Deliver 1 ∷ [] }
    ensures not_without_copies { first_refused Net.Dup (echo 3) (no_recovery {S = ℕ}) (Step.In 1 5 ∷ Step.Tick 1 ∷ Step.Deliver 0 ∷ Step.Deliver 0 ∷ []) ≡ Some (3, StepRefusal.NoCopy) }

    ensures both_delivered { IsDeliveredOrKept {I = ℕ} (Step.Deliver 1 ∷ Step.Deliver 0 ∷ []) (keeping (only_at 1 [])) within }
    ensures one_delivered_and_one_kept { IsDeliveredOrKept {I = ℕ} (Step.Deliver 1 ∷ []) (keeping (only_at 1 (kept 0 0 5 ∷ []))) within }
    ensures only_the_other_delivered { ¬ IsDeliveredOrKept {I = ℕ} (Step.Deliver 1 ∷ []) (keeping (only_at 1 [])) within }
    ensures only_the_other_kept { ¬ IsDeliveredOrKept {I = ℕ} [] (keeping (only_at 2 (kept 0 0 6 ∷ []))) within }
    ensures kept_by_another_node { ¬ IsDeliveredOrKept {I = ℕ} (Step.Deliver 1 ∷ []) (keeping (only_at 0 (kept 0 0 5 ∷ []))) within }
    ensures kept_for_another_node { ¬ IsDeliveredOrKept {I = ℕ} (Step.Deliver 1 ∷ []) (keeping (only_at 1 (kept 0 2 5 ∷ []))) within }
    ensures another_number_is_kept { ¬ IsDeliveredOrKept {I = ℕ} (Step.Deliver 1 ∷ []) (keeping (only_at 1 (kept 1 0 5 ∷ []))) within }
    ensures kept_with_another_content { ¬ IsDeliveredOrKept {I = ℕ} (Step.Deliver 1 ∷ []) (keeping (only_at 1 (kept 0 0 6 ∷ []))) within }
{}
