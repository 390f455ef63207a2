ghost use Rattle.std.specs.Prelude.{◌≡◌, ℕ, [], ◌∷◌, None, Some};
ghost use Rattle.act_network.specs.Cells.{saves_5};
ghost use Rattle.act_world.specs.ActViews.{seen_items};
ghost use Rattle.act_world.specs.Examples.{HasFollowedSmall, StandsAfter, WordLeaves, both_acts, cell, down_with, last_act, saves_by, seen_turn, stopped_by, tells_of};

use act_network::ActStep;
use vst_base::{Item, Step};

/// For which turn of a world a node's turn stands: until it counts the node has the state after it, and then what is left of it.
pub fn worked_turns()
    ensures in_none { StandsAfter [] 0 None }
    ensures begun { StandsAfter (saves_5 []) 5 (saves_by both_acts) }
    ensures not_with_the_state_before { ¬ StandsAfter (saves_5 []) 0 (saves_by both_acts) }
    ensures not_with_an_act_less { ¬ StandsAfter (saves_5 []) 5 (saves_by last_act) }
    ensures after_an_act { StandsAfter (saves_5 (ActStep.Act 0 ∷ [])) 5 (saves_by last_act) }
    ensures saved { StandsAfter (saves_5 (ActStep.Act 0 ∷ ActStep.Act 0 ∷ [])) 5 (tells_of ((1, 5) ∷ []) (5 ∷ []) 0) }
    ensures not_saved_before { ¬ StandsAfter (saves_5 (ActStep.Act 0 ∷ [])) 5 (tells_of ((1, 5) ∷ []) (5 ∷ []) 0) }
    ensures sent { StandsAfter (saves_5 (ActStep.Act 0 ∷ ActStep.Act 0 ∷ ActStep.Act 0 ∷ [])) 5 (tells_of [] (5 ∷ []) 1) }
    ensures not_with_another_number { ¬ StandsAfter (saves_5 (ActStep.Act 0 ∷ ActStep.Act 0 ∷ ActStep.Act 0 ∷ [])) 5 (tells_of [] (5 ∷ []) 0) }
    ensures told { StandsAfter (saves_5 (ActStep.Act 0 ∷ ActStep.Act 0 ∷ ActStep.Act 0 ∷ ActStep.Act 0 ∷ [])) 5 None }
{}

/// What clients saw of turns that count, as a trace.
pub fn worked_traces()
    ensures none { seen_items {I = ℕ} {O = ℕ} [] ≡ [] }
    ensures input_first { seen_items (seen_turn 0 (Some 5) (5 ∷ 6 ∷ []) ∷ []) ≡ Item.Input 0 5 ∷ Item.Output 0 5 ∷ Item.Output 0 6 ∷ [] }
    ensures in_their_order { seen_items (seen_turn 1 None (3 ∷ []) ∷ seen_turn 0 (Some 5) [] ∷ []) ≡ Item.Output 1 3 ∷ Item.Input 0 5 ∷ [] }
{}

/// What a word leaves of a disk: what is durable, or what a read gives. That may be moved out of it, but it still tells the held state from
/// another.
pub fn worked_words()
    ensures durable { WordLeaves 0 (cell 0 5) (cell 0 5) 0 }
    ensures read { WordLeaves 1 (cell 0 5) (cell 0 5) 5 }
    ensures not_what_another_leaves { ¬ WordLeaves 0 (cell 0 5) (cell 0 5) 5 }
    ensures moved_out { WordLeaves 1 (cell 0 5) (cell 0 0) 5 }
    ensures not_the_held_state { ¬ WordLeaves 1 (cell 0 5) (cell 5 5) 5 }
{}

/// Which worlds have followed a schedule whose stop says by a word what is left. Between the two acts of a save the turn never counts where
/// that is what is durable, and counts where it is what a read gives.
pub fn worked_stops()
    ensures never_counts { HasFollowedSmall (down_with 0 (Step.Crash 0 ∷ []) [] 0) (stopped_by 0) }
    ensures counts { HasFollowedSmall (down_with 5 (Step.In 0 5 ∷ Step.Crash 0 ∷ []) (seen_turn 0 (Some 5) [] ∷ []) 1) (stopped_by 1) }
    ensures not_by_its_acts { ¬ HasFollowedSmall (down_with 0 (Step.In 0 5 ∷ Step.Crash 0 ∷ []) (seen_turn 0 (Some 5) [] ∷ []) 1) (stopped_by 0) }
    ensures not_what_another_leaves { ¬ HasFollowedSmall (down_with 0 (Step.Crash 0 ∷ []) [] 0) (stopped_by 1) }
{}
