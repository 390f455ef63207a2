ghost use Rattle.std.specs.Prelude.{◌≡◌, [], ◌∷◌, ◌++◌, Err, Ok, None, Some, take};
ghost use Rattle.disk.specs.Acts.{StoreFailed, Sync, Synced, Wrote};
ghost use Rattle.node_acts.specs.Examples.{knowing, state, three_syncs, who, whole};
ghost use Rattle.node_acts.specs.StateActs.{first_kept, store_at_base};
ghost use Rattle.node_body.specs.Examples.{first_slot, no_op, number_of_eight, number_of_four, old_first, vote_record, voted_slot};
ghost use Rattle.node_device.specs.Examples.{counts};
ghost use Rattle.node_state.specs.Answers.{IfRefused, OpenCounts, OpenGrowsFirst};
ghost use Rattle.node_state.specs.Calls.{DeviceWants, GrowsFirst, StateCounts};
ghost use Rattle.node_state.specs.Changes.{changed_by};
ghost use Rattle.node_state.specs.Examples.{answers, change_of, changes, empty, end_at, first_save, found_so, goes_on, held, is_held_before, known, leaves_either, leaves_found, next_save, opened_so, renewed, saves, slot_left, told_at};
ghost use Rattle.slots.specs.Opening.{BadSelector, BadSlot, Fresh, Held, Refused};
ghost use Rattle.wire_messages.specs.KvBytes.{kv_command};

use crate::{OpenFault, Opened, Refusal, StateFault};
use node_body::{Version, Why};
use vst_base::StackId;

/// What openings answer, by what the areas open as, and why they are refused.
pub fn worked_answers()
    ensures fresh { answers (Opened.Fresh known) Fresh }
    ensures fresh_though_held { answers (Opened.Fresh known) (Held first_kept 0) → ⊥ }
    ensures held { answers (Opened.Held known first_kept) (Held first_kept 4) }
    ensures held_as_another { answers (Opened.Held known first_kept) (Held (state 1 (Some 1) []) 4) → ⊥ }
    ensures held_though_refused { answers (Opened.Held known first_kept) (Refused BadSlot) → ⊥ }
    ensures for_the_selector { IfRefused (OpenFault.Refused Refusal.Selector) (λ why. why ≡ BadSelector) }
    ensures for_the_slot { IfRefused (OpenFault.Refused (Refusal.Slot Why.Slot)) (λ why. why ≡ BadSlot) }
    ensures for_another { IfRefused (OpenFault.Refused (Refusal.Slot Why.Slot)) (λ why. why ≡ BadSelector) → ⊥ }
    ensures for_a_fault { IfRefused OpenFault.Store (λ why. ⊥) }
{}

/// Counts of faults and of wants, by what openings and saves answer.
pub fn worked_counts()
    ensures opened { OpenCounts {T = Unit {0}} (counts 1 1) (counts 1 1) (Ok tt) }
    ensures opened_and_counted { OpenCounts {T = Unit {0}} (counts 1 1) (counts 1 2) (Ok tt) → ⊥ }
    ensures failed { OpenCounts {T = Unit {0}} (counts 1 1) (counts 1 2) (Err OpenFault.Store) }
    ensures failed_uncounted { OpenCounts {T = Unit {0}} (counts 1 1) (counts 1 1) (Err OpenFault.Store) → ⊥ }
    ensures failed_as_a_receive { OpenCounts {T = Unit {0}} (counts 1 1) (counts 2 1) (Err OpenFault.Store) → ⊥ }
    ensures refused_and_counted { OpenCounts {T = Unit {0}} (counts 1 1) (counts 1 2) (Err (OpenFault.Refused Refusal.Selector)) → ⊥ }
    ensures wanted_and_counted { OpenCounts {T = Unit {0}} (counts 1 1) (counts 1 2) (Err OpenFault.Memory) → ⊥ }
    ensures saved_and_counted { StateCounts {T = Unit {0}} (counts 1 1) (counts 1 2) (Ok tt) → ⊥ }
    ensures save_failed { StateCounts {T = Unit {0}} (counts 1 1) (counts 1 2) (Err StateFault.Store) }
    ensures save_failed_uncounted { StateCounts {T = Unit {0}} (counts 1 1) (counts 1 1) (Err StateFault.Store) → ⊥ }
    ensures save_wanted_and_counted { StateCounts {T = Unit {0}} (counts 1 1) (counts 1 2) (Err StateFault.Memory) → ⊥ }
    ensures device_wanted { DeviceWants {T = Unit {0}} 3 4 (Err StateFault.Memory) }
    ensures wanted_by_none { DeviceWants {T = Unit {0}} 3 3 (Err StateFault.Memory) → ⊥ }
    ensures wanted_though_done { DeviceWants {T = Unit {0}} 3 4 (Ok tt) → ⊥ }
    ensures a_growth_after_acts { GrowsFirst {T = Unit {0}} ⊥ 3 3 (Err StateFault.Memory) → ⊥ }
    ensures a_growth_after_an_opening { OpenGrowsFirst {T = Unit {0}} ⊥ 3 3 (Err OpenFault.Memory) → ⊥ }
    ensures a_want_for_a_fault { OpenGrowsFirst {T = Unit {0}} ⊥ 3 4 (Err OpenFault.Store) → ⊥ }
{}

/// Where the journal goes on: after a record, after a base where no record may follow, and after a slot of version 1.
#[tactic(auto, unfolding(wire_fields::specs::Bytes::number_bytes))]
pub fn worked_ends()
    ensures after_a_record { goes_on (end_at 0 38 1000) 0 (state 1 (Some 1) []) ≡ end_at 0 56 999 }
    ensures after_a_base { goes_on (end_at 255 0 0) 0 (state 1 (Some 1) []) ≡ end_at 0 38 1000 }
    ensures renewed { renewed Version.One (end_at 4 22 7) first_kept ≡ end_at 5 38 1000 }
    ensures as_found { renewed Version.Two (end_at 4 38 7) first_kept ≡ end_at 4 38 7 }
{}

/// What is known anew after a save: of a vote, of an entry in the place of two, and of what is held. Then what is known after a change.
#[tactic(auto, unfolding(wire_fields::specs::Bytes::number_bytes))]
pub fn worked_changes()
    ensures a_vote { changes known (state 1 (Some 1) []) ≡ change_of (end_at 0 56 999) 1 (Some 1) 0 [] }
    ensures an_entry { changes (knowing 0 38 0 (state 2 None (1 ∷ 1 ∷ 2 ∷ []))) (state 3 None (1 ∷ 3 ∷ []))
        ≡ change_of (end_at 1 56 1000) 3 None 1 (3 ∷ []) }
    ensures held { changes (knowing 0 38 7 (state 2 None (1 ∷ 2 ∷ []))) (state 2 None (1 ∷ 2 ∷ []))
        ≡ change_of (end_at 0 38 7) 2 None 2 [] }
    ensures after_it { changed_by (knowing 0 38 7 (state 2 None (1 ∷ 1 ∷ 2 ∷ []))) (change_of (end_at 1 56 1000) 3 (Some 1) 1 (3 ∷ []))
        ≡ knowing 1 56 1000 (state 3 (Some 1) (1 ∷ 3 ∷ [])) }
{}

/// Areas that were opened so: as fresh ones, with the first state, and with one of version 1, which is a base then.
#[tactic(auto, unfolding(wire_fields::specs::Bytes::number_bytes, wire_fields::specs::Bytes::number_in, wire_fields::specs::Bytes::has_bytes, wire_fields::specs::Bytes::read_number, node_body::specs::Journals::from_gate))]
pub fn worked_openings()
    ensures found { found_so 0 known first_kept held }
    ensures found_at_another_gate { found_so 0 (knowing 0 37 1000 first_kept) first_kept held → ⊥ }
    ensures found_as_another { found_so 0 known (state 1 (Some 1) []) held → ⊥ }
    ensures found_in_the_other_slot { found_so 1 known first_kept held → ⊥ }
    ensures of_version_one { found_so 0 (knowing 1 38 1000 first_kept) first_kept (told_at old_first [] (0 ∷ [])) }
    ensures of_version_one_as_it_is { found_so 0 (knowing 0 22 1000 first_kept) first_kept (told_at old_first [] (0 ∷ [])) → ⊥ }
    ensures fresh { opened_so (Opened.Fresh known) empty }
    ensures fresh_though_held { opened_so (Opened.Fresh known) held → ⊥ }
    ensures opened { opened_so (Opened.Held known first_kept) held }
    ensures opened_though_empty { opened_so (Opened.Held known first_kept) empty → ⊥ }
{}

/// What a crash leaves in an opening of empty areas: not where a vote is written for the first state, and whatever it is before the third
/// sync. In the save of a vote: the vote or what was held, and neither where its gate is opened before it stands.
#[tactic(auto, unfolding(wire_fields::specs::Bytes::number_bytes, wire_fields::specs::Bytes::number_in, wire_fields::specs::Bytes::has_bytes, wire_fields::specs::Bytes::read_number, node_body::specs::Journals::from_gate))]
pub fn worked_crashes()
    ensures fresh { leaves_found empty (three_syncs ++ (whole 0 (first_slot ++ 0 ∷ []) ++ (whole 1 (first_slot ++ 0 ∷ [])
        ++ (Wrote 2 0 (0 ∷ []) ∷ Synced 2 ∷ [])))) }
    ensures cut_short { leaves_found empty (take 2 three_syncs ++ StoreFailed (Sync 2) ∷ []) }
    ensures a_vote { leaves_found empty (three_syncs ++ (whole 0 (voted_slot ++ 0 ∷ []) ++ (Wrote 2 0 (0 ∷ []) ∷ []))) → ⊥ }
    ensures saved { saves (state 1 (Some 1) []) }
    ensures held { is_held_before known (state 1 (Some 1) []) }
    ensures not_held { is_held_before (knowing 0 37 1000 first_kept) (state 1 (Some 1) []) → ⊥ }
    ensures either { leaves_either (state 1 (Some 1) [])
        (Wrote 0 39 (vote_record ++ 0 ∷ []) ∷ Synced 0 ∷ Wrote 0 38 (1 ∷ []) ∷ Synced 0 ∷ []) }
    ensures neither { leaves_either (state 1 (Some 1) []) (Wrote 0 38 (1 ∷ []) ∷ []) → ⊥ }
{}

/// The first save after an opening of empty areas: what is known before it, its acts, and what a stop after so many of them leaves in slot
/// 0, by a word. The record may be torn where its gate is closed; the gate is found where it was written or torn, and not where it was
/// not synced yet. Then a record with an entry.
#[tactic(auto, unfolding(wire_fields::specs::Bytes::number_bytes))]
pub fn worked_first_save()
    ensures known { store_at_base StackId.KvRaft kv_command who 0 first_kept ≡ known }
    ensures acts { first_save ≡ Wrote 0 39 (vote_record ++ 0 ∷ []) ∷ Synced 0 ∷ Wrote 0 38 (1 ∷ []) ∷ Synced 0 ∷ [] }
    ensures nothing_stood { slot_left 1 0 ≡ first_slot ++ 0 ∷ [] }
    ensures record_read { slot_left 1 1 ≡ first_slot ++ 0 ∷ (vote_record ++ 0 ∷ []) }
    ensures gate_not_synced { slot_left 3 0 ≡ first_slot ++ 0 ∷ (vote_record ++ 0 ∷ []) }
    ensures gate_read { slot_left 3 1 ≡ first_slot ++ 1 ∷ (vote_record ++ 0 ∷ []) }
    ensures gate_torn { slot_left 3 2 ≡ first_slot ++ 255 ∷ (vote_record ++ 0 ∷ []) }
    ensures gate_of_zeros { slot_left 3 3 ≡ first_slot ++ 0 ∷ (vote_record ++ 0 ∷ []) }
    ensures all_synced { slot_left 4 0 ≡ first_slot ++ 1 ∷ (vote_record ++ 0 ∷ []) }
    ensures an_entry { next_save ≡ Wrote 0 57 (number_of_eight 1 ++ (1 ∷ (number_of_four 0 ++ (number_of_four 1 ++ (no_op ++ 0 ∷ [])))))
        ∷ Synced 0 ∷ Wrote 0 56 (1 ∷ []) ∷ Synced 0 ∷ [] }
{}
