ghost use Rattle.std.specs.Prelude.{◌≡◌, ℕ, [], ◌∷◌, true, false, Some, None, slice_get};
ghost use Rattle.net_semantics.specs.Worlds.{copies, ends, held};
ghost use Rattle.net_semantics.specs.Runs.{trace, first_refused, machine, machine_trace, no_recovery, outputs_in};
ghost use Rattle.net_semantics.specs.Once.{once};
ghost use Rattle.net_semantics.specs.ShownFail.{kept_at};
ghost use Rattle.net_semantics.specs.Kept.{IsKept, shown_all, shown_with};
ghost use Rattle.net_semantics.specs.KeptExamples.{in_places, sent_with, shown_along, shown_so};
ghost use Rattle.net_semantics.specs.Order.{IsAhead, IsFirst, IsInOrder};
ghost use Rattle.handler_trait.specs.Echo.{echo, echo_recovery};
ghost use Rattle.net_semantics.specs.Echo.{echo_after, echo_refuses, adder};

use vst_base::{Item, Net, Step, StepRefusal};

/// Each refusal at its border, in the order in which they are tried.
pub fn refusals_in_order()
    ensures one_has_no_tick { echo_refuses Net.One [] (Step.Tick 0) ≡ Some StepRefusal.NotThisNet }
    ensures one_has_no_deliver { echo_refuses Net.One [] (Step.Deliver 0) ≡ Some StepRefusal.NotThisNet }
    ensures bag_has_tick { echo_refuses Net.Bag [] (Step.Tick 0) ≡ None }
    ensures bag_has_no_dup { echo_refuses Net.Bag (Step.In 1 5 ∷ []) (Step.Dup 0) ≡ Some StepRefusal.NotThisNet }
    ensures bag_has_no_lose { echo_refuses Net.Bag (Step.In 1 5 ∷ []) (Step.Lose 0) ≡ Some StepRefusal.NotThisNet }
    ensures bag_has_no_crash { echo_refuses Net.Bag [] (Step.Crash 1) ≡ Some StepRefusal.NotThisNet }
    ensures bag_has_no_reboot { echo_refuses Net.Bag [] (Step.Reboot 1) ≡ Some StepRefusal.NotThisNet }
    ensures dup_has_dup { echo_refuses Net.Dup (Step.In 1 5 ∷ []) (Step.Dup 0) ≡ None }
    ensures dup_has_no_lose { echo_refuses Net.Dup (Step.In 1 5 ∷ []) (Step.Lose 0) ≡ Some StepRefusal.NotThisNet }
    ensures net_before_node { echo_refuses Net.Dup [] (Step.Crash 2) ≡ Some StepRefusal.NotThisNet }
    ensures fail_has_lose { echo_refuses Net.Fail (Step.In 1 5 ∷ []) (Step.Lose 0) ≡ None }
    ensures fail_has_crash { echo_refuses Net.Fail [] (Step.Crash 1) ≡ None }
    ensures fail_has_reboot { echo_refuses Net.Fail (Step.Crash 1 ∷ []) (Step.Reboot 1) ≡ None }

    ensures last_node { echo_refuses Net.Bag [] (Step.Tick 1) ≡ None }
    ensures no_node { echo_refuses Net.Bag [] (Step.Tick 2) ≡ Some StepRefusal.NoSuchNode }
    ensures no_node_for_input { echo_refuses Net.Bag [] (Step.In 2 5) ≡ Some StepRefusal.NoSuchNode }
    ensures node_before_input { echo_refuses Net.Bag [] (Step.In 3 5) ≡ Some StepRefusal.NoSuchNode }
    ensures no_node_to_crash { echo_refuses Net.Fail [] (Step.Crash 2) ≡ Some StepRefusal.NoSuchNode }
    ensures node_before_up { echo_refuses Net.Fail [] (Step.Reboot 2) ≡ Some StepRefusal.NoSuchNode }

    ensures no_input { echo_refuses Net.Bag [] (Step.In 0 5) ≡ Some StepRefusal.NoInputHere }
    ensures input_before_down { echo_refuses Net.Fail (Step.Crash 0 ∷ []) (Step.In 0 5) ≡ Some StepRefusal.NoInputHere }

    ensures down_for_input { echo_refuses Net.Fail (Step.Crash 1 ∷ []) (Step.In 1 5) ≡ Some StepRefusal.NodeDown }
    ensures down_for_tick { echo_refuses Net.Fail (Step.Crash 1 ∷ []) (Step.Tick 1) ≡ Some StepRefusal.NodeDown }
    ensures down_for_crash { echo_refuses Net.Fail (Step.Crash 1 ∷ []) (Step.Crash 1) ≡ Some StepRefusal.NodeDown }
    ensures down_before_copy { echo_refuses Net.Fail (Step.In 1 5 ∷ Step.Deliver 0 ∷ Step.Crash 0 ∷ []) (Step.Deliver 0) ≡ Some StepRefusal.NodeDown }
    ensures copied_while_down { echo_refuses Net.Fail (Step.In 1 5 ∷ Step.Crash 0 ∷ []) (Step.Dup 0) ≡ None }
    ensures source_may_be_down { echo_refuses Net.Fail (Step.In 1 5 ∷ Step.Crash 1 ∷ []) (Step.Deliver 0) ≡ None }
    ensures lost_while_down { echo_refuses Net.Fail (Step.In 1 5 ∷ Step.Crash 0 ∷ []) (Step.Lose 0) ≡ None }
    ensures up { echo_refuses Net.Fail [] (Step.Reboot 1) ≡ Some StepRefusal.NodeUp }

    ensures never_sent { echo_refuses Net.Bag [] (Step.Deliver 0) ≡ Some StepRefusal.NoCopy }
    ensures sent { echo_refuses Net.Bag (Step.In 1 5 ∷ []) (Step.Deliver 0) ≡ None }
    ensures delivered { echo_refuses Net.Bag (Step.In 1 5 ∷ Step.Deliver 0 ∷ []) (Step.Deliver 0) ≡ Some StepRefusal.NoCopy }
    ensures delivered_once_of_two { echo_refuses Net.Dup (Step.In 1 5 ∷ Step.Dup 0 ∷ Step.Deliver 0 ∷ []) (Step.Deliver 0) ≡ None }
    ensures no_copy_to_copy { echo_refuses Net.Dup (Step.In 1 5 ∷ Step.Deliver 0 ∷ []) (Step.Dup 0) ≡ Some StepRefusal.NoCopy }
    ensures no_copy_to_lose { echo_refuses Net.Fail (Step.In 1 5 ∷ []) (Step.Lose 1) ≡ Some StepRefusal.NoCopy }
{}

/// Networks that keep the order of packets and that lose them, each at its border.
pub fn order_and_loss()
    ensures ord_has_tick { echo_refuses Net.Ord [] (Step.Tick 0) ≡ None }
    ensures ord_has_no_dup { echo_refuses Net.Ord (Step.In 1 5 ∷ []) (Step.Dup 0) ≡ Some StepRefusal.NotThisNet }
    ensures ord_has_no_lose { echo_refuses Net.Ord (Step.In 1 5 ∷ []) (Step.Lose 0) ≡ Some StepRefusal.NotThisNet }
    ensures ord_has_no_crash { echo_refuses Net.Ord [] (Step.Crash 1) ≡ Some StepRefusal.NotThisNet }

    ensures first { echo_refuses Net.Ord (Step.In 1 5 ∷ Step.In 1 6 ∷ []) (Step.Deliver 0) ≡ None }
    ensures not_first { echo_refuses Net.Ord (Step.In 1 5 ∷ Step.In 1 6 ∷ []) (Step.Deliver 1) ≡ Some StepRefusal.NotFirst }
    ensures first_once_that_is_gone { echo_refuses Net.Ord (Step.In 1 5 ∷ Step.In 1 6 ∷ Step.Deliver 0 ∷ []) (Step.Deliver 1) ≡ None }
    ensures behind_the_second { echo_refuses Net.Ord (Step.In 1 5 ∷ Step.In 1 6 ∷ Step.In 1 7 ∷ Step.Deliver 0 ∷ []) (Step.Deliver 2)
        ≡ Some StepRefusal.NotFirst }
    ensures behind_the_first_alone { echo_refuses Net.Ord (Step.In 1 5 ∷ Step.In 1 6 ∷ Step.In 1 7 ∷ Step.Deliver 1 ∷ []) (Step.Deliver 2)
        ≡ Some StepRefusal.NotFirst }
    ensures gone_before_not_first { echo_refuses Net.Ord (Step.In 1 5 ∷ Step.In 1 6 ∷ Step.Deliver 1 ∷ []) (Step.Deliver 1)
        ≡ Some StepRefusal.NoCopy }
    ensures to_another_node { echo_refuses Net.Ord (Step.In 1 5 ∷ Step.Tick 1 ∷ []) (Step.Deliver 1) ≡ None }
    ensures from_another_node { echo_refuses Net.Ord (Step.Tick 0 ∷ Step.In 1 5 ∷ []) (Step.Deliver 1) ≡ None }
    ensures never_sent { echo_refuses Net.Ord (Step.In 1 5 ∷ []) (Step.Deliver 1) ≡ Some StepRefusal.NoCopy }
    ensures bag_keeps_no_order { echo_refuses Net.Bag (Step.In 1 5 ∷ Step.In 1 6 ∷ []) (Step.Deliver 1) ≡ None }
    ensures loss_keeps_no_order { echo_refuses Net.Loss (Step.In 1 5 ∷ Step.In 1 6 ∷ []) (Step.Deliver 1) ≡ None }

    ensures loss_has_dup { echo_refuses Net.Loss (Step.In 1 5 ∷ []) (Step.Dup 0) ≡ None }
    ensures loss_has_lose { echo_refuses Net.Loss (Step.In 1 5 ∷ []) (Step.Lose 0) ≡ None }
    ensures loss_has_no_crash { echo_refuses Net.Loss [] (Step.Crash 1) ≡ Some StepRefusal.NotThisNet }
    ensures loss_has_no_reboot { echo_refuses Net.Loss (Step.Crash 1 ∷ []) (Step.Reboot 1) ≡ Some StepRefusal.NotThisNet }
    ensures lost { echo_refuses Net.Loss (Step.In 1 5 ∷ Step.Lose 0 ∷ []) (Step.Lose 0) ≡ Some StepRefusal.NoCopy }

    ensures ahead { IsAhead (shown_so 1 (Some 7) ∷ shown_so 1 (Some 9) ∷ []) 0 1 }
    ensures not_ahead_of_itself { ¬ IsAhead (shown_so 1 (Some 7) ∷ []) 0 0 }
    ensures not_from_another { ¬ IsAhead (shown_along 1 0 1 ∷ shown_along 2 0 1 ∷ []) 0 1 }
    ensures not_to_another { ¬ IsAhead (shown_along 1 0 1 ∷ shown_along 1 2 1 ∷ []) 0 1 }
    ensures not_on_the_way_back { ¬ IsAhead (shown_along 1 0 1 ∷ shown_along 0 1 1 ∷ []) 0 1 }
    ensures none_ahead { IsFirst (shown_so 0 None ∷ shown_so 1 (Some 9) ∷ []) 1 }
    ensures one_ahead { ¬ IsFirst (shown_so 1 (Some 7) ∷ shown_so 1 (Some 9) ∷ []) 1 }
    ensures in_order { IsInOrder (shown_so 0 None ∷ shown_so 1 (Some 9) ∷ []) }
    ensures out_of_order { ¬ IsInOrder (shown_so 1 (Some 7) ∷ shown_so 0 None ∷ []) }
{}

/// What each kind of step makes of a world of two nodes.
pub fn steps_of_a_world()
    ensures first_states { (echo_after []).state 1 ≡ 1 }
    ensures first_up { (echo_after []).is_up 1 ≡ true }
    ensures first_packets { (echo_after []).packets ≡ [] }

    ensures input_state { (echo_after (Step.In 1 5 ∷ [])).state 1 ≡ 5 }
    ensures input_from_a_state { (echo_after (Step.In 1 5 ∷ Step.In 1 3 ∷ [])).state 1 ≡ 5 }
    ensures other_state { (echo_after (Step.In 1 5 ∷ [])).state 0 ≡ 0 }
    ensures input_packets { (echo_after (Step.In 1 5 ∷ [])).packets ≡ record { source = 1; destination = 0; content = 5; copies = 1 } ∷ [] }
    ensures tick_state { (echo_after (Step.In 1 5 ∷ Step.Tick 1 ∷ [])).state 1 ≡ 40 }
    ensures tick_packets { (echo_after (Step.Tick 1 ∷ [])).packets ≡ record { source = 1; destination = 1; content = 9; copies = 1 } ∷ [] }
    ensures order_of_sending { (echo_after (Step.Tick 1 ∷ Step.In 1 5 ∷ [])).packets ≡ record { source = 1; destination = 1; content = 9; copies = 1 } ∷ record { source = 1; destination = 0; content = 5; copies = 1 } ∷ [] }

    ensures deliver_state { (echo_after (Step.In 1 5 ∷ Step.Deliver 0 ∷ [])).state 0 ≡ 105 }
    ensures deliver_copies { copies (echo_after (Step.In 1 5 ∷ Step.Deliver 0 ∷ [])) 0 ≡ 0 }
    ensures deliver_ends { ends (echo_after (Step.In 1 5 ∷ Step.Deliver 0 ∷ [])) 0 ≡ Some (1, 0) }
    ensures never_sent_copies { copies (echo_after (Step.In 1 5 ∷ [])) 1 ≡ 0 }
    ensures never_sent_ends { ends (echo_after (Step.In 1 5 ∷ [])) 1 ≡ None }
    ensures dup_copies { copies (echo_after (Step.In 1 5 ∷ Step.Dup 0 ∷ [])) 0 ≡ 2 }
    ensures dup_other { copies (echo_after (Step.In 1 5 ∷ Step.In 1 6 ∷ Step.Dup 1 ∷ [])) 0 ≡ 1 }
    ensures lose_copies { copies (echo_after (Step.In 1 5 ∷ Step.Dup 0 ∷ Step.Lose 0 ∷ [])) 0 ≡ 1 }
    ensures lose_state { (echo_after (Step.In 1 5 ∷ Step.Lose 0 ∷ [])).state 0 ≡ 0 }

    ensures held_of_none_one_and_two { held (echo_after (Step.In 1 5 ∷ Step.In 1 6 ∷ Step.In 1 7 ∷ Step.Deliver 0 ∷ Step.Dup 2 ∷ [])) ≡ 2 }
    ensures dup_held { held (echo_after (Step.In 1 5 ∷ Step.Dup 0 ∷ [])) ≡ 1 }
    ensures lose_held { held (echo_after (Step.In 1 5 ∷ Step.In 1 6 ∷ Step.Lose 0 ∷ [])) ≡ 1 }
    ensures lose_of_two_held { held (echo_after (Step.In 1 5 ∷ Step.Dup 0 ∷ Step.Lose 0 ∷ [])) ≡ 1 }
    ensures deliver_last_held { held (echo_after (Step.In 1 5 ∷ Step.Deliver 0 ∷ [])) ≡ 0 }
    ensures deliver_of_two_held { held (echo_after (Step.In 1 5 ∷ Step.Dup 0 ∷ Step.Deliver 0 ∷ [])) ≡ 1 }

    ensures crash_up { (echo_after (Step.In 1 5 ∷ Step.Crash 1 ∷ [])).is_up 1 ≡ false }
    ensures crash_other_up { (echo_after (Step.In 1 5 ∷ Step.Crash 1 ∷ [])).is_up 0 ≡ true }
    ensures crash_kept { (echo_after (Step.In 1 5 ∷ Step.Crash 1 ∷ [])).kept 1 ≡ Some 2 }
    ensures crash_packets { copies (echo_after (Step.In 1 5 ∷ Step.Crash 1 ∷ [])) 0 ≡ 1 }
    ensures reboot_up { (echo_after (Step.In 1 5 ∷ Step.Crash 1 ∷ Step.Reboot 1 ∷ [])).is_up 1 ≡ true }
    ensures reboot_state { (echo_after (Step.In 1 5 ∷ Step.Crash 1 ∷ Step.Reboot 1 ∷ [])).state 1 ≡ 3 }
    ensures reboot_kept { (echo_after (Step.In 1 5 ∷ Step.Crash 1 ∷ Step.Reboot 1 ∷ [])).kept 1 ≡ None }
{}

/// Short runs of three nodes, and of a single machine.
pub fn runs_and_traces()
    ensures nothing { trace (echo 3) echo_recovery [] ≡ [] }
    ensures input_then_outputs { trace (echo 3) echo_recovery (Step.In 1 5 ∷ Step.In 2 7 ∷ Step.Deliver 1 ∷ Step.Tick 0 ∷ Step.Deliver 0 ∷ []) ≡ Item.Input 1 5 ∷ Item.Output 1 5 ∷ Item.Input 2 7 ∷ Item.Output 2 7 ∷ Item.Output 0 7 ∷ Item.Output 0 40 ∷ Item.Output 0 5 ∷ [] }
    ensures silent_steps { trace (echo 3) echo_recovery (Step.In 2 7 ∷ Step.Dup 0 ∷ Step.Lose 0 ∷ Step.Crash 1 ∷ Step.Reboot 1 ∷ []) ≡ Item.Input 2 7 ∷ Item.Output 2 7 ∷ [] }
    ensures allowed { first_refused Net.Bag (echo 3) echo_recovery (Step.In 1 5 ∷ Step.Deliver 0 ∷ Step.Tick 2 ∷ []) ≡ None }
    ensures refused_at_once { first_refused Net.Bag (echo 3) echo_recovery (Step.Tick 3 ∷ Step.Dup 0 ∷ []) ≡ Some (0, StepRefusal.NoSuchNode) }
    ensures refused_by_bag { first_refused Net.Bag (echo 3) echo_recovery (Step.In 1 5 ∷ Step.Dup 0 ∷ Step.Deliver 1 ∷ []) ≡ Some (1, StepRefusal.NotThisNet) }
    ensures refused_later { first_refused Net.Dup (echo 3) echo_recovery (Step.In 1 5 ∷ Step.Dup 0 ∷ Step.Deliver 1 ∷ []) ≡ Some (2, StepRefusal.NoCopy) }

    ensures machine_answers { machine_trace adder (3 ∷ 4 ∷ []) ≡ Item.Input 0 3 ∷ Item.Output 0 0 ∷ Item.Input 0 4 ∷ Item.Output 0 3 ∷ [] }
    ensures machine_outputs { outputs_in (machine_trace adder (3 ∷ 4 ∷ [])) ≡ 0 ∷ 3 ∷ [] }
    ensures machine_as_handlers { trace (machine adder) no_recovery (Step.In 0 3 ∷ Step.In 0 4 ∷ []) ≡ machine_trace adder (3 ∷ 4 ∷ []) }
    ensures machine_alone { first_refused Net.One (machine adder) no_recovery (Step.In 0 3 ∷ Step.In 1 4 ∷ []) ≡ Some (1, StepRefusal.NoSuchNode) }
{}

/// Schedules without their repeats.
pub fn repeats_left_out()
    ensures copy_left_out { once {I = ℕ} (Step.In 1 5 ∷ Step.Dup 0 ∷ Step.Deliver 0 ∷ Step.Deliver 1 ∷ Step.Deliver 0 ∷ []) ≡ Step.In 1 5 ∷ Step.Deliver 0 ∷ Step.Deliver 1 ∷ [] }
    ensures first_delivery_stays { once {I = ℕ} (Step.Deliver 0 ∷ Step.Tick 1 ∷ Step.Deliver 0 ∷ Step.Tick 2 ∷ []) ≡ Step.Deliver 0 ∷ Step.Tick 1 ∷ Step.Tick 2 ∷ [] }
    ensures in_any_order { once {I = ℕ} (Step.In 1 5 ∷ Step.In 1 5 ∷ Step.Deliver 1 ∷ Step.Deliver 0 ∷ []) ≡ Step.In 1 5 ∷ Step.In 1 5 ∷ Step.Deliver 1 ∷ Step.Deliver 0 ∷ [] }
    ensures others_stay { once {I = ℕ} (Step.Lose 0 ∷ Step.Lose 0 ∷ Step.Crash 1 ∷ Step.Reboot 1 ∷ Step.Tick 1 ∷ Step.Tick 1 ∷ []) ≡ Step.Lose 0 ∷ Step.Lose 0 ∷ Step.Crash 1 ∷ Step.Reboot 1 ∷ Step.Tick 1 ∷ Step.Tick 1 ∷ [] }
    ensures no_steps { once {I = ℕ} (Step.Dup 0 ∷ Step.Dup 0 ∷ []) ≡ [] }
{}

/// What the nodes of these places have kept.
pub fn kept_by_place()
    ensures up { kept_at {K = ℕ} (slice_get (None ∷ Some 10 ∷ []) 0) ≡ None }
    ensures down { kept_at {K = ℕ} (slice_get (None ∷ Some 10 ∷ []) 1) ≡ Some 10 }
    ensures no_node { kept_at {K = ℕ} (slice_get (None ∷ Some 10 ∷ []) 2) ≡ None }
{}

/// Packets as they are shown, by contents that are kept apart, and which contents these may be.
pub fn contents_apart()
    ensures in_flight { shown_with (in_places (Some 7 ∷ Some 9 ∷ [])) (sent_with 2 1) ≡ shown_so 2 (Some 9) }
    ensures in_a_place_that_another_has_now { shown_with (in_places (Some 7 ∷ [])) (sent_with 0 0) ≡ shown_so 0 None }
    ensures all { shown_all (in_places (None ∷ Some 9 ∷ [])) (sent_with 0 0 ∷ sent_with 1 1 ∷ []) ≡ shown_so 0 None ∷ shown_so 1 (Some 9) ∷ [] }
    ensures kept { IsKept (sent_with 0 0 ∷ sent_with 2 0 ∷ []) (in_places (Some 7 ∷ [])) }
    ensures not_without_a_content { IsKept (sent_with 1 0 ∷ sent_with 1 1 ∷ []) (in_places (Some 7 ∷ None ∷ Some 9 ∷ [])) → ⊥ }
    ensures not_with_another_content { IsKept (sent_with 1 0 ∷ []) (in_places (Some 7 ∷ Some 9 ∷ [])) → ⊥ }
    ensures not_in_one_place { IsKept (sent_with 1 0 ∷ sent_with 1 0 ∷ []) (in_places (Some 7 ∷ Some 9 ∷ [])) → ⊥ }
{}
