ghost use Rattle.std.specs.Prelude.{◌≡◌, ℕ, true, false, [], ◌∷◌, ◌++◌, take, length};
ghost use Rattle.disk.specs.Acts.{Wrote, Cut, Synced, Now, Quiet, Took, Sent, SendFailed};
ghost use Rattle.disk.specs.Between.{may_become_between};
ghost use Rattle.disk.specs.Disk.{overwritten, after, may_become};
ghost use Rattle.slots.specs.Opening.{Is, Not, BadSelector, BadSlot, BadJournal, Fresh, Held, Refused};
ghost use Rattle.slots.specs.Saving.{next, save_acts, open_acts, move_acts};
ghost use Rattle.slots.specs.SavingLaws.{Ready};
ghost use Rattle.slots.specs.PatchLaws.{patch_acts, TornIsEither};
ghost use Rattle.slots.specs.TurnLaws.{Keeps};
ghost use Rattle.slots.specs.Turns.{datagrams};
ghost use Rattle.slots.specs.Examples.{counted_found, gated_found, slot, opened_as, leaves, leaves_between, save_leaves, at_rest, hasty_acts, node_at};

/// What areas open as: the selector's parity names the slot, and the other slot may be anything.
pub fn worked_openings()
    ensures even { opened_as (slot (1 ∷ [])) (slot (2 ∷ [])) (0 ∷ []) ≡ Held (1 ∷ []) 0 }
    ensures odd { opened_as (slot (1 ∷ [])) (slot (2 ∷ [])) (3 ∷ []) ≡ Held (2 ∷ []) 3 }
    ensures other_is_anything { opened_as (slot (1 ∷ [])) (9 ∷ []) (2 ∷ []) ≡ Held (1 ∷ []) 2 }
    ensures fresh { opened_as [] [] [] ≡ Fresh }
    ensures fresh_whatever_the_slots_hold { opened_as (9 ∷ []) (slot (2 ∷ [])) [] ≡ Fresh }
    ensures two_selectors { opened_as (slot (1 ∷ [])) (slot (2 ∷ [])) (0 ∷ 0 ∷ []) ≡ Refused BadSelector }
    ensures no_slot { opened_as (slot (1 ∷ [])) [] (1 ∷ []) ≡ Refused BadSlot }
    ensures short_slot { opened_as (2 ∷ 1 ∷ []) (slot (2 ∷ [])) (0 ∷ []) ≡ Refused BadSlot }
{}

/// The acts of saves and openings.
pub fn worked_acts()
    ensures save { save_acts 0 (slot (2 ∷ [])) ≡ Wrote 1 0 (1 ∷ 2 ∷ []) ∷ Cut 1 2 ∷ Synced 1 ∷ Wrote 2 0 (1 ∷ []) ∷ Synced 2 ∷ [] }
    ensures save_odd { take 4 (save_acts 3 (slot [])) ≡ Wrote 0 0 (0 ∷ []) ∷ Cut 0 1 ∷ Synced 0 ∷ Wrote 2 0 (4 ∷ []) ∷ [] }
    ensures wraps { next 255 ≡ 0 }
    ensures open_held { open_acts (3 ∷ []) (slot []) ≡ Synced 0 ∷ Synced 1 ∷ Synced 2 ∷ [] }
    ensures open_fresh { open_acts [] (slot [])
        ≡ Synced 0 ∷ Synced 1 ∷ Synced 2 ∷ Wrote 0 0 (0 ∷ []) ∷ Cut 0 1 ∷ Synced 0 ∷ Wrote 1 0 (0 ∷ []) ∷ Cut 1 1 ∷ Synced 1
        ∷ Wrote 2 0 (0 ∷ []) ∷ Synced 2 ∷ [] }
    ensures moved { take 4 (move_acts 0 (slot [])) ≡ Synced 0 ∷ Synced 1 ∷ Synced 2 ∷ Wrote 1 0 (0 ∷ []) ∷ [] }
{}

/// What a crash leaves of a save: a torn slot is one that the selector does not name yet, and a torn selector names a whole slot.
pub fn worked_saves()
    ensures torn_slot { save_leaves 2 (9 ∷ 9 ∷ 9 ∷ []) (0 ∷ []) ≡ true }
    ensures torn_early { save_leaves 2 (slot (2 ∷ 2 ∷ [])) (1 ∷ []) ≡ false }
    ensures torn_selector { save_leaves 4 (slot (2 ∷ 2 ∷ [])) (127 ∷ []) ≡ true }
    ensures torn_late { save_leaves 4 (9 ∷ 9 ∷ 9 ∷ []) (1 ∷ []) ≡ false }
    ensures in_the_end { save_leaves 5 (slot (2 ∷ 2 ∷ [])) (1 ∷ []) ≡ true }
    ensures not_as_before { save_leaves 5 (slot (2 ∷ 2 ∷ [])) (0 ∷ []) ≡ false }
{}

/// A patch of a slot with a journal: a record after a closed gate, and then its gate, which is one byte.
pub fn worked_journals()
    ensures closed { gated_found (1 ∷ 0 ∷ 9 ∷ 9 ∷ []) ≡ Is 1 }
    ensures opened { gated_found (1 ∷ 1 ∷ 2 ∷ 0 ∷ []) ≡ Is 2 }
    ensures no_record { gated_found (1 ∷ 1 ∷ []) ≡ Not BadJournal }
    ensures acts { patch_acts 0 1 (1 ∷ []) ≡ Wrote 0 1 (1 ∷ []) ∷ Synced 0 ∷ [] }
    ensures torn_record { leaves (1 ∷ 0 ∷ []) (take 1 (patch_acts 0 2 (2 ∷ 0 ∷ []))) (1 ∷ 0 ∷ 9 ∷ 9 ∷ []) (slot (1 ∷ [])) (0 ∷ []) ≡ true }
    ensures torn_gate { leaves (1 ∷ 0 ∷ 2 ∷ 0 ∷ []) (take 1 (patch_acts 0 1 (1 ∷ [])))
        (1 ∷ 77 ∷ 2 ∷ 0 ∷ []) (slot (1 ∷ [])) (0 ∷ []) ≡ true }
    ensures any_gate { TornIsEither may_become gated_found 1 2 (1 ∷ 0 ∷ 2 ∷ 0 ∷ []) 1 (1 ∷ []) }
{}

/// Lengths between: of a slot while it is written, which the selector does not name yet, and of a record while its gate is closed;
/// none of a gate or a selector, which are written over a byte.
pub fn worked_between()
    ensures slot { leaves_between (slot (1 ∷ [])) (take 1 (save_acts 0 (slot (2 ∷ 2 ∷ 2 ∷ []))))
        (slot (1 ∷ [])) (3 ∷ 9 ∷ 9 ∷ []) (0 ∷ []) ≡ true }
    ensures slot_before { leaves (slot (1 ∷ [])) (take 1 (save_acts 0 (slot (2 ∷ 2 ∷ 2 ∷ []))))
        (slot (1 ∷ [])) (3 ∷ 9 ∷ 9 ∷ []) (0 ∷ []) ≡ false }
    ensures slot_not_named { opened_as (slot (1 ∷ [])) (3 ∷ 9 ∷ 9 ∷ []) (0 ∷ []) ≡ Held (1 ∷ []) 0 }
    ensures slot_synced { leaves_between (slot (1 ∷ [])) (take 3 (save_acts 0 (slot (2 ∷ 2 ∷ 2 ∷ []))))
        (slot (1 ∷ [])) (3 ∷ 9 ∷ 9 ∷ []) (0 ∷ []) ≡ false }
    ensures selector { leaves_between (slot (1 ∷ [])) (take 4 (save_acts 0 (slot (2 ∷ [])))) (slot (1 ∷ [])) (slot (2 ∷ [])) [] ≡ false }
    ensures record { leaves_between (1 ∷ 0 ∷ []) (take 1 (patch_acts 0 2 (2 ∷ 0 ∷ []))) (1 ∷ 0 ∷ 9 ∷ []) (slot (1 ∷ [])) (0 ∷ []) ≡ true }
    ensures record_before { leaves (1 ∷ 0 ∷ []) (take 1 (patch_acts 0 2 (2 ∷ 0 ∷ []))) (1 ∷ 0 ∷ 9 ∷ []) (slot (1 ∷ [])) (0 ∷ []) ≡ false }
    ensures record_does_not_count { gated_found (1 ∷ 0 ∷ 9 ∷ []) ≡ Is 1 }
    ensures gate { leaves_between (1 ∷ 0 ∷ 2 ∷ 0 ∷ []) (take 1 (patch_acts 0 1 (1 ∷ []))) (1 ∷ 1 ∷ []) (slot (1 ∷ [])) (0 ∷ []) ≡ false }
    ensures any_gate { TornIsEither may_become_between gated_found 1 2 (1 ∷ 0 ∷ 2 ∷ 0 ∷ []) 1 (1 ∷ []) }
{}

/// In another order a crash may leave what opens as neither the old state nor the new one: with a selector before its slot's sync,
/// a slot that was not cut, a gate before its record's sync, and both in one write.
pub fn worked_wrong_orders()
    ensures hasty { leaves (slot (1 ∷ [])) (take 3 (hasty_acts (slot (2 ∷ 2 ∷ [])))) (slot (1 ∷ [])) (9 ∷ 9 ∷ 9 ∷ []) (1 ∷ []) ≡ true }
    ensures hasty_lost { opened_as (slot (1 ∷ [])) (9 ∷ 9 ∷ 9 ∷ []) (1 ∷ []) ≡ Refused BadSlot }
    ensures uncut_lost { counted_found (overwritten (slot (1 ∷ 1 ∷ 1 ∷ [])) 0 (slot (2 ∷ []))) ≡ Not BadSlot }
    ensures gate_first { leaves (1 ∷ 0 ∷ []) (Wrote 0 2 (2 ∷ 0 ∷ []) ∷ Wrote 0 1 (1 ∷ []) ∷ [])
        (1 ∷ 1 ∷ 9 ∷ 9 ∷ []) (slot (1 ∷ [])) (0 ∷ []) ≡ true }
    ensures gate_first_lost { gated_found (1 ∷ 1 ∷ 9 ∷ 9 ∷ []) ≡ Not BadJournal }
    ensures in_one { leaves (1 ∷ 0 ∷ []) (Wrote 0 1 (1 ∷ 2 ∷ 0 ∷ []) ∷ []) (1 ∷ 1 ∷ 9 ∷ 0 ∷ []) (slot (1 ∷ [])) (0 ∷ []) ≡ true }
    ensures in_one_other { gated_found (1 ∷ 1 ∷ 9 ∷ 0 ∷ []) ≡ Is 9 }
{}

/// The datagrams of acts, sent or lost; and fronts of a list.
pub fn worked_datagrams()
    ensures sent { datagrams (Synced 2 ∷ Sent (node_at 7001) (9 ∷ []) ∷ Now 5 ∷ []) ≡ (node_at 7001, 9 ∷ []) ∷ [] }
    ensures lost { datagrams (SendFailed (node_at 7002) (7 ∷ []) ∷ Sent (node_at 7001) [] ∷ []) ≡
        (node_at 7002, 7 ∷ []) ∷ (node_at 7001, []) ∷ [] }
    ensures heard { datagrams (Took 100 (node_at 7001) (8 ∷ []) ∷ Quiet 300 ∷ []) ≡ [] }
{}

/// Disks that are ready for a save: with nothing pending, and this selector.
pub fn worked_starts()
    ensures ready { Ready 0 at_rest }
    ensures ready_again { Ready 0 (after at_rest (Wrote 1 0 (9 ∷ []) ∷ Synced 1 ∷ [])) }
    ensures ready_while_pending { Ready 0 (after at_rest (Wrote 1 0 (9 ∷ []) ∷ [])) → ⊥ }
    ensures ready_under_another { Ready 1 at_rest → ⊥ }
{}

/// Acts that keep a state: a save, and none where nothing is new. Not such are none where there is a new state, a selector before its
/// slot's sync, a selector that is not synced, and an act that is not on the areas.
pub fn worked_ways()
    ensures a_save { Keeps counted_found (1 ∷ []) (2 ∷ []) 1 (save_acts 0 (slot (2 ∷ []))) at_rest }
    ensures nothing { Keeps counted_found (1 ∷ []) (1 ∷ []) 0 [] at_rest }
    ensures nothing_for_another { Keeps counted_found (1 ∷ []) (2 ∷ []) 0 [] at_rest → ⊥ }
    ensures hasty { Keeps counted_found (1 ∷ []) (2 ∷ 2 ∷ []) 1 (hasty_acts (slot (2 ∷ 2 ∷ []))) at_rest → ⊥ }
    ensures not_synced { Keeps counted_found (1 ∷ []) (2 ∷ []) 1 (take 4 (save_acts 0 (slot (2 ∷ [])))) at_rest → ⊥ }
    ensures elsewhere { Keeps counted_found (1 ∷ []) (1 ∷ []) 0 (Now 5 ∷ []) at_rest → ⊥ }
{}
