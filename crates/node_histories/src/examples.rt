ghost use Rattle.std.specs.Prelude.{◌≡◌, [], ◌∷◌, None, Some, true};
ghost use Rattle.handler_trait.specs.Echo.{echo, echo_recovery};
ghost use Rattle.linearizability.specs.Examples.{asks, put, put_at, say_full, tell, tell_at, turn_away};
ghost use Rattle.linearizability.specs.Linearizable.{IsLinearizable};
ghost use Rattle.net_semantics.specs.Runs.{trace};
ghost use Rattle.node_histories.specs.Examples.{MayHappenAtThree, NothingForgedAtThree, RunsAtThree, as_asked, asks_7, asks_9, both_at_once, heard_twice_as_steps, hears_5, history_at_three, is_given_5, items_at_three, late_and_twice, late_and_twice_as_steps, one_by_one, refused_at_three, run_at_three, state_at_three, sums, tells_7, tells_9};
ghost use Rattle.node_histories.specs.Histories.{Asked, Fired, Heard, Restarts, Takes, own, packet, packets_of};
ghost use Rattle.node_histories.specs.Translations.{translated, translated_alone};
ghost use Rattle.node_histories.specs.Views.{AreAsked, AreGiven, HasView};
ghost use Rattle.vst_base.specs.Examples.{counter};

use vst_base::{Item, Step, StepRefusal};

/// What comes of a history of three nodes: each node's state by its own part of it, what is sent, and what clients see.
pub fn worked_histories()
    ensures its_own { own 0 late_and_twice ≡ Takes (Heard 2 7) ∷ Takes (Heard 1 5) ∷ Takes (Heard 1 5) ∷ [] }
    ensures its_own_in_order { own 1 late_and_twice ≡ Takes (Asked 5) ∷ Restarts ∷ [] }
    ensures its_first_state { state_at_three [] 2 ≡ 2 }
    ensures asked { state_at_three (is_given_5 ∷ []) 1 ≡ 5 }
    ensures no_other_is_asked { state_at_three (is_given_5 ∷ []) 2 ≡ 2 }
    ensures heard { state_at_three (is_given_5 ∷ hears_5 ∷ []) 0 ≡ 105 }
    ensures fired { state_at_three ((2, Takes Fired) ∷ []) 2 ≡ 40 }
    ensures restarted { state_at_three ((1, Takes (Asked 8)) ∷ (1, Restarts) ∷ []) 1 ≡ 5 }
    ensures of_node_0 { state_at_three late_and_twice 0 ≡ 207 }
    ensures of_node_1 { state_at_three late_and_twice 1 ≡ 3 }
    ensures of_node_2 { state_at_three late_and_twice 2 ≡ 40 }
    ensures sent { packets_of (echo 3) echo_recovery late_and_twice ≡ packet 1 0 5 ∷ packet 2 0 7 ∷ packet 2 2 9 ∷ [] }
    ensures seen { items_at_three late_and_twice ≡
        Item.Input 1 5 ∷ Item.Output 1 5 ∷ Item.Input 2 7 ∷ Item.Output 2 7 ∷ Item.Output 0 7 ∷ Item.Output 0 5 ∷ Item.Output 2 40
        ∷ Item.Output 0 5 ∷ [] }
{}

/// What may happen, and what may not: a forged message is none that was sent.
pub fn worked_premises()
    ensures nothing { MayHappenAtThree [] }
    ensures late_and_twice { MayHappenAtThree late_and_twice }
    ensures never_heard { MayHappenAtThree (is_given_5 ∷ (2, Takes Fired) ∷ []) }
    ensures heard_by_itself { MayHappenAtThree ((2, Takes Fired) ∷ (2, Takes (Heard 2 9)) ∷ []) }
    ensures heard_after_its_source_stopped { MayHappenAtThree (is_given_5 ∷ (1, Restarts) ∷ (0, Restarts) ∷ hears_5 ∷ []) }
    ensures by_a_node_that_takes_no_input { MayHappenAtThree ((0, Takes Fired) ∷ (0, Takes (Heard 0 9)) ∷ []) }

    ensures forged { NothingForgedAtThree (hears_5 ∷ []) → ⊥ }
    ensures forged_content { NothingForgedAtThree (is_given_5 ∷ (0, Takes (Heard 1 6)) ∷ []) → ⊥ }
    ensures forged_source { NothingForgedAtThree (is_given_5 ∷ (0, Takes (Heard 2 5)) ∷ []) → ⊥ }
    ensures at_another_node { NothingForgedAtThree (is_given_5 ∷ (2, Takes (Heard 1 5)) ∷ []) → ⊥ }
    ensures too_early { NothingForgedAtThree (hears_5 ∷ is_given_5 ∷ []) → ⊥ }
    ensures forged_after_a_true_one { NothingForgedAtThree (is_given_5 ∷ hears_5 ∷ (0, Takes (Heard 1 7)) ∷ []) → ⊥ }
    ensures no_input_there { MayHappenAtThree ((0, Takes (Asked 5)) ∷ []) → ⊥ }
    ensures no_such_node { MayHappenAtThree ((3, Takes Fired) ∷ []) → ⊥ }
{}

/// A schedule with the same states, packets and items, and schedules that have others: a message that is delivered and not copied is
/// in flight no more, and one that nobody sent has no place in a schedule.
pub fn worked_runs()
    ensures allowed { refused_at_three late_and_twice_as_steps ≡ None }
    ensures runs { RunsAtThree late_and_twice late_and_twice_as_steps }
    ensures its_state { (run_at_three late_and_twice_as_steps).state 0 ≡ 207 }
    ensures it_is_up { (run_at_three late_and_twice_as_steps).is_up 1 ≡ true }
    ensures its_packets { (run_at_three late_and_twice_as_steps).packets ≡ packet 1 0 5 ∷ packet 2 0 7 ∷ packet 2 2 9 ∷ [] }
    ensures its_history { history_at_three late_and_twice_as_steps ≡ late_and_twice }
    ensures its_items { trace (echo 3) echo_recovery late_and_twice_as_steps ≡ items_at_three late_and_twice }
    ensures one_copy_is_gone { RunsAtThree (is_given_5 ∷ hears_5 ∷ []) (Step.In 1 5 ∷ Step.Deliver 0 ∷ []) → ⊥ }
    ensures it_stays_down { RunsAtThree ((1, Restarts) ∷ []) (Step.Crash 1 ∷ []) → ⊥ }
    ensures not_heard { RunsAtThree (is_given_5 ∷ hears_5 ∷ []) (Step.In 1 5 ∷ []) → ⊥ }
    ensures in_another_order { RunsAtThree (is_given_5 ∷ (2, Takes (Asked 7)) ∷ []) (Step.In 2 7 ∷ Step.In 1 5 ∷ []) → ⊥ }
    ensures not_started_again { RunsAtThree ((0, Restarts) ∷ []) [] → ⊥ }
    ensures started_again_besides { RunsAtThree [] (Step.Crash 0 ∷ Step.Reboot 0 ∷ []) → ⊥ }
    ensures heard_once_too_often { RunsAtThree (is_given_5 ∷ hears_5 ∷ []) heard_twice_as_steps → ⊥ }
    ensures not_allowed { RunsAtThree [] (Step.Lose 0 ∷ []) → ⊥ }
    ensures nobody_sent_it { refused_at_three (Step.Dup 0 ∷ Step.Deliver 0 ∷ []) ≡ Some (0, StepRefusal.NoCopy) }
{}

/// Numbers at nodes, told as sums so far, and each twice where it is even.
pub fn worked_translations()
    ensures together { translated sums (λ _. 0) ((1, 5) ∷ (2, 4) ∷ (1, 3) ∷ []) ≡ (1, 5) ∷ (2, 4) ∷ (2, 4) ∷ (1, 8) ∷ (1, 8) ∷ [] }
    ensures alone { translated_alone sums 1 0 (5 ∷ 3 ∷ []) ≡ 5 ∷ 8 ∷ 8 ∷ [] }
    ensures another_alone { translated_alone sums 2 0 (4 ∷ []) ≡ 4 ∷ 4 ∷ [] }
{}

/// What is a view of what was seen, and what is none: each way in which a view tells less or has more asked, and each in which it tells
/// what nobody saw.
pub fn worked_views()
    ensures itself { HasView one_by_one one_by_one }
    ensures replies_lost { HasView one_by_one (asks_7 ∷ asks_9 ∷ []) }
    ensures one_reply_lost { HasView one_by_one (asks_7 ∷ asks_9 ∷ tells_9 ∷ []) }
    ensures asked_earlier { HasView one_by_one (asks_9 ∷ asks_7 ∷ tells_7 ∷ tells_9 ∷ []) }
    ensures told_later { HasView one_by_one both_at_once }
    ensures told_in_another_order { HasView both_at_once (asks_9 ∷ asks_7 ∷ tells_9 ∷ tells_7 ∷ []) }
    ensures told_twice { HasView one_by_one (asks_7 ∷ tells_7 ∷ asks_9 ∷ tells_7 ∷ tells_9 ∷ tells_9 ∷ []) }
    ensures told_elsewhere { HasView one_by_one (put_at 2 (asks 7 1 5) ∷ tell_at 1 7 1 0 ∷ put_at 1 (asks 9 1 3) ∷ []) }
    ensures asked_again { HasView one_by_one (asks_7 ∷ asks_7 ∷ tells_7 ∷ asks_9 ∷ tells_9 ∷ []) }
    ensures asked_more { HasView one_by_one (put (asks 8 1 1) ∷ asks_7 ∷ tells_7 ∷ asks_9 ∷ put (asks 9 2 4) ∷ []) }
    ensures turned_away_and_full { HasView one_by_one (asks_7 ∷ turn_away 7 1 ∷ asks_9 ∷ say_full 9 1 ∷ []) }
    ensures of_nothing { HasView [] (asks_7 ∷ turn_away 7 1 ∷ []) }
    ensures the_first_of_two_replies { HasView (asks_7 ∷ tells_7 ∷ asks_9 ∷ tells_7 ∷ []) (asks_7 ∷ tells_7 ∷ asks_9 ∷ []) }

    ensures asked_of_it { AreAsked one_by_one both_at_once }
    ensures not_asked_of_it { AreAsked one_by_one (asks_7 ∷ tells_9 ∷ []) → ⊥ }
    ensures given_by_it { AreGiven both_at_once one_by_one }
    ensures turned_away_is_no_reply { AreGiven (turn_away 7 1 ∷ say_full 7 1 ∷ asks_7 ∷ []) [] }
    ensures not_given_by_it { AreGiven (tell 9 1 4 ∷ []) one_by_one → ⊥ }

    ensures a_request_is_lost { HasView one_by_one (asks_7 ∷ tells_7 ∷ []) → ⊥ }
    ensures a_request_is_another { HasView one_by_one (asks_7 ∷ tells_7 ∷ put (asks 9 1 4) ∷ tells_9 ∷ []) → ⊥ }
    ensures a_client_is_another { HasView one_by_one (asks_7 ∷ tells_7 ∷ put (asks 8 1 3) ∷ []) → ⊥ }
    ensures never_told { HasView (asks_7 ∷ []) (asks_7 ∷ tells_7 ∷ []) → ⊥ }
    ensures told_another_output { HasView one_by_one (asks_7 ∷ asks_9 ∷ tell 9 1 0 ∷ []) → ⊥ }
    ensures another_is_told { HasView one_by_one (asks_7 ∷ asks_9 ∷ tell 8 1 5 ∷ []) → ⊥ }
    ensures told_of_another_request { HasView one_by_one (asks_7 ∷ asks_9 ∷ tell 9 2 5 ∷ []) → ⊥ }
    ensures told_before_it_asked { HasView one_by_one (asks_7 ∷ tells_9 ∷ asks_9 ∷ []) → ⊥ }
    ensures told_before_another_asked { HasView one_by_one (asks_9 ∷ tells_9 ∷ asks_7 ∷ []) → ⊥ }

    ensures the_order_stays { IsLinearizable counter as_asked both_at_once }
    ensures less_may_have_more_orders { IsLinearizable counter (asks 9 1 3 ∷ asks 7 1 5 ∷ []) (asks_7 ∷ asks_9 ∷ []) }
    ensures not_of_all_that_was_seen { IsLinearizable counter (asks 9 1 3 ∷ asks 7 1 5 ∷ []) both_at_once → ⊥ }
    ensures not_without_the_request { IsLinearizable counter as_asked (asks_7 ∷ tells_7 ∷ []) → ⊥ }
    ensures not_before_another_asked { IsLinearizable counter as_asked (asks_9 ∷ tells_9 ∷ asks_7 ∷ []) → ⊥ }
{}
