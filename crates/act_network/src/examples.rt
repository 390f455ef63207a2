ghost use Rattle.std.specs.Prelude.{◌≡◌, [], ◌∷◌, None, Some};
ghost use Rattle.net_semantics.specs.Runs.{trace};
ghost use Rattle.act_network.specs.ActLaws.{ActsAreEvents};
ghost use Rattle.act_network.specs.ActRuns.{IsActRun, image_of, listed_trace};
ghost use Rattle.act_network.specs.Cells.{CellCanSave, CellEventsCanSave, CellHolds, CellsAllow, CellsLeaveOut, CellsRecover, CellsTake, NothingCanSave, all_kept, cell_image, cell_listed, cell_refusal, cells, cells_by_words, first_refused_of_cells, noted_of_cells, one_more_kept, saves_5, stopped_twice, summing};

use crate::ActStep;
use vst_base::{Item, Step, StepRefusal};

/// Runs of two nodes: what each comes to as whole events, and what clients saw.
pub fn worked_runs()
    // A turn with all its acts: it counts, and its output is seen.
    ensures whole_taken { CellsTake (saves_5 (ActStep.Act 0 ∷ ActStep.Act 0 ∷ ActStep.Act 0 ∷ ActStep.Act 0 ∷ [])) }
    ensures whole { cell_image (saves_5 (ActStep.Act 0 ∷ ActStep.Act 0 ∷ ActStep.Act 0 ∷ ActStep.Act 0 ∷ [])) ≡ Step.In 0 5 ∷ [] }
    ensures whole_seen { cell_listed (saves_5 (ActStep.Act 0 ∷ ActStep.Act 0 ∷ ActStep.Act 0 ∷ ActStep.Act 0 ∷ [])) ≡
        Item.Input 0 5 ∷ Item.Output 0 5 ∷ [] }

    // It counts with its last act on the area, and not before.
    ensures first_act { cell_image (saves_5 (ActStep.Act 0 ∷ [])) ≡ [] }
    ensures first_act_seen { cell_listed (saves_5 (ActStep.Act 0 ∷ [])) ≡ [] }
    ensures last_act { cell_image (saves_5 (ActStep.Act 0 ∷ ActStep.Act 0 ∷ [])) ≡ Step.In 0 5 ∷ [] }
    ensures last_act_seen { cell_listed (saves_5 (ActStep.Act 0 ∷ ActStep.Act 0 ∷ [])) ≡ Item.Input 0 5 ∷ [] }

    // Stopped before its output: it counts, and the output is left out.
    ensures unsent_seen { cell_listed (saves_5 (ActStep.Act 0 ∷ ActStep.Act 0 ∷ ActStep.Act 0 ∷ ActStep.Stop 0 5 ∷ [])) ≡ Item.Input 0 5 ∷ [] }

    // Stopped between its two acts on the area: it counts where the area opens as its state, and never where it opens as the old one.
    ensures as_new_taken { CellsTake (saves_5 (ActStep.Act 0 ∷ ActStep.Stop 0 5 ∷ [])) }
    ensures as_new { cell_image (saves_5 (ActStep.Act 0 ∷ ActStep.Stop 0 5 ∷ [])) ≡ Step.In 0 5 ∷ Step.Crash 0 ∷ [] }
    ensures as_new_seen { cell_listed (saves_5 (ActStep.Act 0 ∷ ActStep.Stop 0 5 ∷ [])) ≡ Item.Input 0 5 ∷ [] }
    ensures as_old_taken { CellsTake (saves_5 (ActStep.Act 0 ∷ ActStep.Stop 0 0 ∷ [])) }
    ensures as_old { cell_image (saves_5 (ActStep.Act 0 ∷ ActStep.Stop 0 0 ∷ [])) ≡ Step.Crash 0 ∷ [] }
    ensures as_old_seen { cell_listed (saves_5 (ActStep.Act 0 ∷ ActStep.Stop 0 0 ∷ [])) ≡ [] }
    ensures not_left { CellsTake (saves_5 (ActStep.Act 0 ∷ ActStep.Stop 0 3 ∷ [])) → ⊥ }
    ensures not_left_once_durable { CellsTake (saves_5 (ActStep.Act 0 ∷ ActStep.Act 0 ∷ ActStep.Stop 0 0 ∷ [])) → ⊥ }

    // A turn that saves nothing counts when it begins.
    ensures at_once { cell_image (ActStep.Tick 0 ∷ []) ≡ Step.Tick 0 ∷ [] }
    ensures at_once_unsent { cell_listed (ActStep.Tick 0 ∷ []) ≡ [] }
    ensures at_once_seen { cell_listed (ActStep.Tick 0 ∷ ActStep.Act 0 ∷ []) ≡ Item.Output 0 0 ∷ [] }

    // A turn's outputs stand where it counts, also where another turn counts before they are sent.
    ensures in_order_of_counting { cell_listed (ActStep.Tick 0 ∷ ActStep.Tick 1 ∷ ActStep.Act 1 ∷ ActStep.Act 0 ∷ []) ≡
        Item.Output 0 0 ∷ Item.Output 1 0 ∷ [] }

    // A node that stops before its send, starts and sends again: packets have the numbers of the run of whole events there, where the
    // first was sent too.
    ensures never_sent { cell_image (saves_5 (ActStep.Act 0 ∷ ActStep.Act 0 ∷ ActStep.Stop 0 5 ∷ ActStep.Reboot 0 ∷ ActStep.In 0 2
        ∷ ActStep.Act 0 ∷ ActStep.Act 0 ∷ ActStep.Act 0 ∷ ActStep.Deliver 0 ∷ ActStep.Act 1 ∷ ActStep.Act 1 ∷ []))
        ≡ Step.In 0 5 ∷ Step.Crash 0 ∷ Step.Reboot 0 ∷ Step.In 0 2 ∷ Step.Deliver 1 ∷ [] }

    // A turn that never counts took a copy: among the whole events it stays in flight.
    ensures copy_stays { cell_image (saves_5 (ActStep.Act 0 ∷ ActStep.Act 0 ∷ ActStep.Act 0 ∷ ActStep.Deliver 0 ∷ ActStep.Act 1
        ∷ ActStep.Stop 1 0 ∷ [])) ≡ Step.In 0 5 ∷ Step.Crash 1 ∷ [] }

    // Copies and losses are of the packet's number there.
    ensures copied_and_lost { cell_image (saves_5 (ActStep.Act 0 ∷ ActStep.Act 0 ∷ ActStep.Act 0 ∷ ActStep.Dup 0 ∷ ActStep.Lose 0 ∷ []))
        ≡ Step.In 0 5 ∷ Step.Dup 0 ∷ Step.Lose 0 ∷ [] }
{}

/// Why steps are refused, in their order: what the network `fail` refuses comes first.
pub fn worked_refusals()
    ensures none { cell_refusal (saves_5 []) (ActStep.Act 0) ≡ None }
    ensures busy_at_a_tick { cell_refusal (saves_5 []) (ActStep.Tick 0) ≡ Some StepRefusal.NodeBusy }
    ensures busy_at_an_input { cell_refusal (saves_5 (ActStep.Act 0 ∷ ActStep.Act 0 ∷ ActStep.Act 0 ∷ [])) (ActStep.In 0 1) ≡
        Some StepRefusal.NodeBusy }
    ensures busy_at_a_delivery { cell_refusal (saves_5 (ActStep.Act 0 ∷ ActStep.Act 0 ∷ ActStep.Act 0 ∷ ActStep.Tick 1 ∷ []))
        (ActStep.Deliver 0) ≡ Some StepRefusal.NodeBusy }
    ensures not_busy { cell_refusal (saves_5 (ActStep.Act 0 ∷ ActStep.Act 0 ∷ ActStep.Act 0 ∷ ActStep.Act 0 ∷ [])) (ActStep.Tick 0) ≡ None }
    ensures another_is_busy { cell_refusal (saves_5 []) (ActStep.Tick 1) ≡ None }
    ensures a_busy_node_stops { cell_refusal (saves_5 []) (ActStep.Stop 0 0) ≡ None }
    ensures idle { cell_refusal [] (ActStep.Act 0) ≡ Some StepRefusal.NodeIdle }
    ensures idle_once_ended { cell_refusal (ActStep.Tick 0 ∷ ActStep.Act 0 ∷ []) (ActStep.Act 0) ≡ Some StepRefusal.NodeIdle }
    ensures down_before_idle { cell_refusal (ActStep.Stop 0 0 ∷ []) (ActStep.Act 0) ≡ Some StepRefusal.NodeDown }
    ensures down_at_a_stop { cell_refusal (ActStep.Stop 0 0 ∷ []) (ActStep.Stop 0 0) ≡ Some StepRefusal.NodeDown }
    ensures up { cell_refusal [] (ActStep.Reboot 0) ≡ Some StepRefusal.NodeUp }
    ensures no_such_node_acts { cell_refusal [] (ActStep.Act 2) ≡ Some StepRefusal.NoSuchNode }
    ensures no_such_node_stops { cell_refusal [] (ActStep.Stop 2 0) ≡ Some StepRefusal.NoSuchNode }
    ensures no_input_before_busy { cell_refusal (ActStep.Tick 1 ∷ []) (ActStep.In 1 5) ≡ Some StepRefusal.NoInputHere }
    ensures no_copy { cell_refusal [] (ActStep.Deliver 0) ≡ Some StepRefusal.NoCopy }
    ensures no_copy_before_busy { cell_refusal (saves_5 (ActStep.Act 0 ∷ ActStep.Act 0 ∷ ActStep.Act 0 ∷ ActStep.Lose 0 ∷ ActStep.Tick 1 ∷ []))
        (ActStep.Deliver 0) ≡ Some StepRefusal.NoCopy }
    ensures down_before_no_copy { cell_refusal (saves_5 (ActStep.Act 0 ∷ ActStep.Act 0 ∷ ActStep.Act 0 ∷ ActStep.Lose 0 ∷ ActStep.Stop 1 0 ∷ []))
        (ActStep.Deliver 0) ≡ Some StepRefusal.NodeDown }
    ensures a_copy_that_a_turn_took { cell_refusal (saves_5 (ActStep.Act 0 ∷ ActStep.Act 0 ∷ ActStep.Act 0 ∷ ActStep.Deliver 0 ∷ []))
        (ActStep.Lose 0) ≡ Some StepRefusal.NoCopy }
{}

/// What clients note at the moments of single acts; the first step of a schedule that is refused; and stops by words.
pub fn worked_moments()
    ensures noted_when_it_begins { noted_of_cells (saves_5 []) ≡ Item.Input 0 5 ∷ [] }
    ensures listed_when_it_counts { cell_listed (saves_5 []) ≡ [] }
    ensures noted_in_their_order { noted_of_cells (ActStep.Tick 0 ∷ ActStep.Tick 1 ∷ ActStep.Act 1 ∷ ActStep.Act 0 ∷ []) ≡
        Item.Output 1 0 ∷ Item.Output 0 0 ∷ [] }
    ensures noted_though_it_never_counts { noted_of_cells (saves_5 (ActStep.Act 0 ∷ ActStep.Stop 0 0 ∷ [])) ≡ Item.Input 0 5 ∷ [] }
    ensures noted_after_the_send { noted_of_cells (saves_5 (ActStep.Act 0 ∷ ActStep.Act 0 ∷ ActStep.Act 0 ∷ [])) ≡ Item.Input 0 5 ∷ [] }
    ensures noted_at_last { noted_of_cells (saves_5 (ActStep.Act 0 ∷ ActStep.Act 0 ∷ ActStep.Act 0 ∷ ActStep.Act 0 ∷ [])) ≡
        Item.Input 0 5 ∷ Item.Output 0 5 ∷ [] }

    ensures refused { first_refused_of_cells (saves_5 (ActStep.Act 0 ∷ ActStep.Tick 0 ∷ [])) ≡ Some (2, StepRefusal.NodeBusy) }
    ensures none_refused { first_refused_of_cells (saves_5 (ActStep.Act 0 ∷ [])) ≡ None }

    ensures durable { cells_by_words (saves_5 (ActStep.Act 0 ∷ ActStep.Stop 0 0 ∷ [])) ≡ saves_5 (ActStep.Act 0 ∷ ActStep.Stop 0 0 ∷ []) }
    ensures as_read { cells_by_words (saves_5 (ActStep.Act 0 ∷ ActStep.Stop 0 1 ∷ [])) ≡ saves_5 (ActStep.Act 0 ∷ ActStep.Stop 0 5 ∷ []) }
{}

/// Which traces are another with some outputs left out: none that leaves an input out, has more, or has another order.
pub fn worked_listings()
    ensures all { CellsLeaveOut (Item.Input 0 5 ∷ Item.Output 0 5 ∷ []) (Item.Input 0 5 ∷ Item.Output 0 5 ∷ []) }
    ensures an_output { CellsLeaveOut (Item.Input 0 5 ∷ []) (Item.Input 0 5 ∷ Item.Output 0 5 ∷ []) }
    ensures no_input { CellsLeaveOut (Item.Output 0 5 ∷ []) (Item.Input 0 5 ∷ Item.Output 0 5 ∷ []) → ⊥ }
    ensures no_more { CellsLeaveOut (Item.Output 0 5 ∷ Item.Output 0 5 ∷ []) (Item.Output 0 5 ∷ []) → ⊥ }
    ensures no_other_order { CellsLeaveOut (Item.Output 0 5 ∷ Item.Input 0 5 ∷ []) (Item.Input 0 5 ∷ Item.Output 0 5 ∷ []) → ⊥ }
{}

/// Of these handlers the premises of the laws: which starts keep what they were given, and which states can be saved.
pub fn worked_premises()
    ensures kept { CellsRecover all_kept }
    ensures not_kept { CellsRecover one_more_kept → ⊥ }
    ensures can_save { CellEventsCanSave CellCanSave }
    ensures cannot_save { CellEventsCanSave NothingCanSave → ⊥ }
    ensures begins_a_turn { IsActRun summing all_kept cells NothingCanSave (ActStep.Tick 0 ∷ []) → ⊥ }
    ensures begins_none { IsActRun summing all_kept cells NothingCanSave (ActStep.Stop 0 0 ∷ ActStep.Reboot 0 ∷ []) }
    ensures allowed { CellsAllow (cells_by_words (saves_5 (ActStep.Act 0 ∷ ActStep.Stop 0 1 ∷ []))) }
    ensures not_allowed { CellsAllow (saves_5 (ActStep.Act 0 ∷ ActStep.Stop 0 3 ∷ [])) → ⊥ }
    ensures busy { CellsAllow (saves_5 (ActStep.Tick 0 ∷ [])) → ⊥ }
{}

/// Where a start does not keep what it was given, the run of whole events says something else than the acts: the law has need of that
/// premise.
pub fn worked_starts()
    ensures taken { IsActRun summing one_more_kept cells CellCanSave stopped_twice }
    ensures seen { listed_trace summing one_more_kept cells stopped_twice ≡ Item.Output 0 1 ∷ [] }
    ensures whole { trace summing one_more_kept (image_of summing one_more_kept cells stopped_twice) ≡ Item.Output 0 2 ∷ [] }
    ensures seen_where_it_is_kept { cell_listed stopped_twice ≡ Item.Output 0 0 ∷ [] }
    ensures whole_where_it_is_kept { trace summing all_kept (cell_image stopped_twice) ≡ Item.Output 0 0 ∷ [] }
{}

/// The small disk is such a disk, so what is proved of acts holds of it.
pub fn cells_keep_numbers<S, I, O, M>()
    ensures { ActsAreEvents S I O M cells CellHolds CellCanSave }
{}
