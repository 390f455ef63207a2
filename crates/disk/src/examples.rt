ghost use Rattle.std.specs.Prelude.{◌≡◌, true, false, [], ◌∷◌};
ghost use Rattle.disk.specs.Acts.{Wrote, Cut, Synced, StoreFailed, ReadAt, WriteAt, CutTo, Sync, Quiet};
ghost use Rattle.disk.specs.Disk.{written, cut, settled};
ghost use Rattle.disk.specs.DiskLaws.{IsCutShort};
ghost use Rattle.disk.specs.Examples.{leaves, leaves_all, leaves_between, leaves_from, worded};

/// A write that is torn: any bytes in its range, the others as they were, the length as it was.
pub fn worked_writes()
    ensures torn { leaves (1 ∷ 2 ∷ 3 ∷ 4 ∷ []) (Wrote 0 0 (9 ∷ 9 ∷ []) ∷ []) (7 ∷ 2 ∷ 3 ∷ 4 ∷ []) ≡ true }
    ensures torn_elsewhere { leaves (1 ∷ 2 ∷ 3 ∷ 4 ∷ []) (Wrote 0 0 (9 ∷ 9 ∷ []) ∷ []) (9 ∷ 9 ∷ 3 ∷ 5 ∷ []) ≡ false }
    ensures torn_shorter { leaves (1 ∷ 2 ∷ 3 ∷ 4 ∷ []) (Wrote 0 0 (9 ∷ 9 ∷ []) ∷ []) (9 ∷ 9 ∷ 3 ∷ []) ≡ false }
    ensures nothing { leaves (1 ∷ []) (Wrote 0 3 [] ∷ []) (1 ∷ 0 ∷ 0 ∷ []) ≡ false }
{}

/// A write past the end, with a gap: the old length or the new one, and any bytes past the old end.
pub fn worked_gaps()
    ensures gap_read { leaves (1 ∷ []) (Wrote 0 3 (9 ∷ []) ∷ []) (1 ∷ 0 ∷ 0 ∷ 9 ∷ []) ≡ true }
    ensures gap_old { leaves (1 ∷ []) (Wrote 0 3 (9 ∷ []) ∷ []) (1 ∷ []) ≡ true }
    ensures gap_torn { leaves (1 ∷ []) (Wrote 0 3 (9 ∷ []) ∷ []) (1 ∷ 7 ∷ 7 ∷ 7 ∷ []) ≡ true }
    ensures gap_between { leaves (1 ∷ []) (Wrote 0 3 (9 ∷ []) ∷ []) (1 ∷ 0 ∷ []) ≡ false }
    ensures gap_front { leaves (1 ∷ []) (Wrote 0 3 (9 ∷ []) ∷ []) (2 ∷ 0 ∷ 0 ∷ 9 ∷ []) ≡ false }
{}

/// A cut that is pending, alone and before a write: each length before and after an act and no other, and any bytes past the
/// least of them.
pub fn worked_cuts()
    ensures cut_done { leaves (1 ∷ 2 ∷ 3 ∷ 4 ∷ []) (Cut 0 2 ∷ []) (1 ∷ 2 ∷ []) ≡ true }
    ensures cut_not { leaves (1 ∷ 2 ∷ 3 ∷ 4 ∷ []) (Cut 0 2 ∷ []) (1 ∷ 2 ∷ 9 ∷ 4 ∷ []) ≡ true }
    ensures cut_between { leaves (1 ∷ 2 ∷ 3 ∷ 4 ∷ []) (Cut 0 2 ∷ []) (1 ∷ 2 ∷ 3 ∷ []) ≡ false }
    ensures cut_front { leaves (1 ∷ 2 ∷ 3 ∷ 4 ∷ []) (Cut 0 2 ∷ []) (1 ∷ 3 ∷ []) ≡ false }
    ensures both_least { leaves (1 ∷ 2 ∷ 3 ∷ 4 ∷ []) (Cut 0 1 ∷ Wrote 0 1 (8 ∷ 9 ∷ []) ∷ []) (1 ∷ []) ≡ true }
    ensures both_new { leaves (1 ∷ 2 ∷ 3 ∷ 4 ∷ []) (Cut 0 1 ∷ Wrote 0 1 (8 ∷ 9 ∷ []) ∷ []) (1 ∷ 5 ∷ 5 ∷ []) ≡ true }
    ensures both_old { leaves (1 ∷ 2 ∷ 3 ∷ 4 ∷ []) (Cut 0 1 ∷ Wrote 0 1 (8 ∷ 9 ∷ []) ∷ []) (1 ∷ 5 ∷ 5 ∷ 5 ∷ []) ≡ true }
    ensures both_none { leaves (1 ∷ 2 ∷ 3 ∷ 4 ∷ []) (Cut 0 1 ∷ Wrote 0 1 (8 ∷ 9 ∷ []) ∷ []) (1 ∷ 8 ∷ []) ≡ false }
{}

/// The test with lengths between: any from the least to the greatest of those before and after the acts, and no other; the bytes that
/// are not pending as they were. After a sync, or where no act changes it, the length is what a read gives.
pub fn worked_between()
    ensures longer { leaves_between (1 ∷ []) (Wrote 0 3 (9 ∷ []) ∷ []) (1 ∷ 7 ∷ []) ≡ true }
    ensures longer_before { leaves (1 ∷ []) (Wrote 0 3 (9 ∷ []) ∷ []) (1 ∷ 7 ∷ []) ≡ false }
    ensures too_long { leaves_between (1 ∷ []) (Wrote 0 3 (9 ∷ []) ∷ []) (1 ∷ 0 ∷ 0 ∷ 9 ∷ 0 ∷ []) ≡ false }
    ensures too_short { leaves_between (1 ∷ []) (Wrote 0 3 (9 ∷ []) ∷ []) [] ≡ false }
    ensures front { leaves_between (1 ∷ []) (Wrote 0 3 (9 ∷ []) ∷ []) (2 ∷ 0 ∷ []) ≡ false }
    ensures old { leaves_between (1 ∷ []) (Wrote 0 3 (9 ∷ []) ∷ []) (1 ∷ []) ≡ true }
    ensures new { leaves_between (1 ∷ []) (Wrote 0 3 (9 ∷ []) ∷ []) (1 ∷ 0 ∷ 0 ∷ 9 ∷ []) ≡ true }
    ensures cut { leaves_between (1 ∷ 2 ∷ 3 ∷ 4 ∷ []) (Cut 0 2 ∷ []) (1 ∷ 2 ∷ 8 ∷ []) ≡ true }
    ensures cut_before { leaves (1 ∷ 2 ∷ 3 ∷ 4 ∷ []) (Cut 0 2 ∷ []) (1 ∷ 2 ∷ 8 ∷ []) ≡ false }
    ensures cut_too_far { leaves_between (1 ∷ 2 ∷ 3 ∷ 4 ∷ []) (Cut 0 2 ∷ []) (1 ∷ []) ≡ false }
    ensures cut_front { leaves_between (1 ∷ 2 ∷ 3 ∷ 4 ∷ []) (Cut 0 2 ∷ []) (1 ∷ 8 ∷ 3 ∷ []) ≡ false }
    ensures across_acts { leaves_between (1 ∷ 2 ∷ 3 ∷ 4 ∷ []) (Cut 0 1 ∷ Wrote 0 1 (8 ∷ 9 ∷ []) ∷ []) (1 ∷ 8 ∷ []) ≡ true }
    ensures same_length { leaves_between (1 ∷ 2 ∷ []) (Wrote 0 0 (9 ∷ []) ∷ []) (9 ∷ []) ≡ false }
    ensures synced { leaves_between (1 ∷ []) (Wrote 0 3 (9 ∷ []) ∷ Synced 0 ∷ []) (1 ∷ 0 ∷ []) ≡ false }
{}

/// A write or cut that failed counts as done, and a sync that failed as none.
pub fn worked_faults()
    ensures failed_write { leaves (1 ∷ 2 ∷ []) (StoreFailed (WriteAt 0 0 (9 ∷ [])) ∷ []) (5 ∷ 2 ∷ []) ≡ true }
    ensures failed_write_none { leaves (1 ∷ 2 ∷ []) (StoreFailed (WriteAt 0 0 (9 ∷ [])) ∷ []) (1 ∷ 2 ∷ []) ≡ true }
    ensures failed_write_elsewhere { leaves (1 ∷ 2 ∷ []) (StoreFailed (WriteAt 0 0 (9 ∷ [])) ∷ []) (5 ∷ 7 ∷ []) ≡ false }
    ensures failed_read { leaves (1 ∷ 2 ∷ []) (StoreFailed (ReadAt 0 0 2) ∷ []) (5 ∷ 2 ∷ []) ≡ false }
    ensures failed_cut_none { leaves (1 ∷ 2 ∷ []) (StoreFailed (CutTo 0 1) ∷ []) (1 ∷ 2 ∷ []) ≡ true }
    ensures failed_cut { leaves (1 ∷ 2 ∷ []) (StoreFailed (CutTo 0 1) ∷ []) (1 ∷ []) ≡ true }
    ensures failed_sync { leaves (1 ∷ 2 ∷ []) (Wrote 0 0 (9 ∷ []) ∷ StoreFailed (Sync 0) ∷ []) (5 ∷ 2 ∷ []) ≡ true }
{}

/// After a sync of its area a crash leaves what a read gives. A sync of another area changes nothing.
pub fn worked_syncs()
    ensures synced { leaves (1 ∷ 2 ∷ []) (Wrote 0 0 (9 ∷ []) ∷ Synced 0 ∷ []) (9 ∷ 2 ∷ []) ≡ true }
    ensures synced_only { leaves (1 ∷ 2 ∷ []) (Wrote 0 0 (9 ∷ []) ∷ Synced 0 ∷ []) (5 ∷ 2 ∷ []) ≡ false }
    ensures synced_else { leaves (1 ∷ 2 ∷ []) (Wrote 0 0 (9 ∷ []) ∷ Synced 1 ∷ []) (5 ∷ 2 ∷ []) ≡ true }
{}

/// What an earlier process left pending: its ranges and lengths stay so until the next sync.
pub fn worked_pending()
    ensures range { leaves_from (written 1 (9 ∷ []) (settled (1 ∷ 2 ∷ 3 ∷ []))) [] (1 ∷ 7 ∷ 3 ∷ []) ≡ true }
    ensures elsewhere { leaves_from (written 1 (9 ∷ []) (settled (1 ∷ 2 ∷ 3 ∷ []))) [] (7 ∷ 9 ∷ 3 ∷ []) ≡ false }
    ensures length { leaves_from (cut 1 (settled (1 ∷ 2 ∷ 3 ∷ []))) [] (1 ∷ 7 ∷ 7 ∷ []) ≡ true }
    ensures other_length { leaves_from (cut 1 (settled (1 ∷ 2 ∷ 3 ∷ []))) [] (1 ∷ 7 ∷ []) ≡ false }
    ensures with_another { leaves_from (cut 1 (settled (1 ∷ 2 ∷ 3 ∷ []))) (Wrote 0 0 (5 ∷ []) ∷ []) (7 ∷ 7 ∷ 7 ∷ []) ≡ true }
    ensures until_a_sync { leaves_from (cut 1 (settled (1 ∷ 2 ∷ 3 ∷ []))) (Synced 0 ∷ []) (1 ∷ 2 ∷ 3 ∷ []) ≡ false }
{}

/// The image of each word: after two writes, the first of them synced, and after cuts.
pub fn worked_images()
    ensures stood { worded (1 ∷ 2 ∷ []) (Wrote 0 0 (8 ∷ []) ∷ Synced 0 ∷ Wrote 0 1 (9 ∷ 9 ∷ []) ∷ []) 0 ≡ 8 ∷ 2 ∷ [] }
    ensures read { worded (1 ∷ 2 ∷ []) (Wrote 0 0 (8 ∷ []) ∷ Synced 0 ∷ Wrote 0 1 (9 ∷ 9 ∷ []) ∷ []) 1 ≡ 8 ∷ 9 ∷ 9 ∷ [] }
    ensures ones { worded (1 ∷ 2 ∷ []) (Wrote 0 0 (8 ∷ []) ∷ Synced 0 ∷ Wrote 0 1 (9 ∷ 9 ∷ []) ∷ []) 2 ≡ 8 ∷ 255 ∷ 255 ∷ [] }
    ensures zeros { worded (1 ∷ 2 ∷ []) (Wrote 0 0 (8 ∷ []) ∷ Synced 0 ∷ Wrote 0 1 (9 ∷ 9 ∷ []) ∷ []) 3 ≡ 8 ∷ 0 ∷ 0 ∷ [] }
    ensures gap_of_zeros { worded (1 ∷ []) (Wrote 0 3 (9 ∷ []) ∷ []) 1 ≡ 1 ∷ 0 ∷ 0 ∷ 9 ∷ [] }
    ensures a_cut_adds_zeros { worded (1 ∷ []) (Cut 0 3 ∷ []) 1 ≡ 1 ∷ 0 ∷ 0 ∷ [] }
    ensures by_remainder { worded (1 ∷ 2 ∷ []) (Wrote 0 0 (8 ∷ []) ∷ []) 4 ≡ 1 ∷ 2 ∷ [] }
    ensures at_first { worded (1 ∷ 2 ∷ []) [] 0 ≡ 1 ∷ 2 ∷ [] }
    ensures another_synced { worded (1 ∷ 2 ∷ []) (Wrote 0 0 (8 ∷ []) ∷ Synced 1 ∷ []) 0 ≡ 1 ∷ 2 ∷ [] }
    ensures longer_again { worded (1 ∷ 2 ∷ 3 ∷ []) (Cut 0 1 ∷ Cut 0 2 ∷ []) 2 ≡ 1 ∷ 255 ∷ [] }
{}

/// Acts that a fault cut short: a beginning of them, of which the last may have failed, or a read after it.
pub fn worked_short_acts()
    ensures none { IsCutShort (Wrote 0 0 (9 ∷ []) ∷ Synced 0 ∷ []) [] }
    ensures beginning { IsCutShort (Wrote 0 0 (9 ∷ []) ∷ Synced 0 ∷ []) (Wrote 0 0 (9 ∷ []) ∷ []) }
    ensures whole { IsCutShort (Wrote 0 0 (9 ∷ []) ∷ Synced 0 ∷ []) (Wrote 0 0 (9 ∷ []) ∷ Synced 0 ∷ []) }
    ensures failed { IsCutShort (Wrote 0 0 (9 ∷ []) ∷ Synced 0 ∷ []) (Wrote 0 0 (9 ∷ []) ∷ StoreFailed (Sync 0) ∷ []) }
    ensures failed_read { IsCutShort (Synced 0 ∷ []) (Synced 0 ∷ StoreFailed (ReadAt 2 0 1) ∷ []) }
    ensures other_call_failed { IsCutShort (Synced 0 ∷ []) (StoreFailed (CutTo 0 1) ∷ []) → ⊥ }
    ensures on_after_a_failure { IsCutShort (Synced 0 ∷ Synced 1 ∷ []) (StoreFailed (Sync 0) ∷ Synced 1 ∷ []) → ⊥ }
    ensures another_act { IsCutShort (Synced 0 ∷ []) (Quiet 5 ∷ []) → ⊥ }
{}

/// Writes and cuts that failed where the acts were cut short: the same bytes and length, in the same place. Nothing comes after the end.
pub fn worked_short_failures()
    ensures write { IsCutShort (Wrote 0 0 (9 ∷ []) ∷ Synced 0 ∷ []) (StoreFailed (WriteAt 0 0 (9 ∷ [])) ∷ []) }
    ensures write_of_other_bytes { IsCutShort (Wrote 0 0 (9 ∷ []) ∷ []) (StoreFailed (WriteAt 0 0 (8 ∷ [])) ∷ []) → ⊥ }
    ensures write_elsewhere { IsCutShort (Wrote 0 0 (9 ∷ []) ∷ []) (StoreFailed (WriteAt 1 0 (9 ∷ [])) ∷ []) → ⊥ }
    ensures cut { IsCutShort (Cut 0 3 ∷ Synced 0 ∷ []) (StoreFailed (CutTo 0 3) ∷ []) }
    ensures cut_to_another_length { IsCutShort (Cut 0 3 ∷ []) (StoreFailed (CutTo 0 2) ∷ []) → ⊥ }
    ensures read_after_the_end { IsCutShort (Cut 0 3 ∷ []) (Cut 0 3 ∷ StoreFailed (ReadAt 0 0 1) ∷ []) }
    ensures done_with_other_bytes { IsCutShort (Wrote 0 0 (9 ∷ []) ∷ []) (Wrote 0 0 (8 ∷ []) ∷ []) → ⊥ }
    ensures more { IsCutShort (Synced 0 ∷ []) (Synced 0 ∷ Synced 0 ∷ []) → ⊥ }
{}

/// Each of the three areas counts: what is pending on one leaves the others as they are.
pub fn worked_areas()
    ensures as_read { leaves_all (Wrote 1 0 (9 ∷ []) ∷ []) (1 ∷ []) (9 ∷ []) (3 ∷ []) ≡ true }
    ensures torn_slot_1 { leaves_all (Wrote 1 0 (9 ∷ []) ∷ []) (1 ∷ []) (7 ∷ []) (3 ∷ []) ≡ true }
    ensures another_slot_0 { leaves_all (Wrote 1 0 (9 ∷ []) ∷ []) (7 ∷ []) (9 ∷ []) (3 ∷ []) ≡ false }
    ensures another_slot_1 { leaves_all (Wrote 2 0 (9 ∷ []) ∷ []) (1 ∷ []) (7 ∷ []) (9 ∷ []) ≡ false }
    ensures another_selector { leaves_all (Wrote 1 0 (9 ∷ []) ∷ []) (1 ∷ []) (9 ∷ []) (7 ∷ []) ≡ false }
    ensures torn_selector { leaves_all (Wrote 2 0 (9 ∷ []) ∷ []) (1 ∷ []) (2 ∷ []) (7 ∷ []) ≡ true }
{}
