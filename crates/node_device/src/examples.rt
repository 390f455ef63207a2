ghost use Rattle.std.specs.Prelude.{◌≡◌, ◌-◌, ◌^◌, true, false, [], ◌∷◌, None, OnSome};
ghost use Rattle.disk.specs.Acts.{ReadAt, WriteAt, CutTo, Sync, Now, Began, BeginFailed, Quiet, Took, ReceiveFailed, SendFailed, Wrote, Cut, Synced, StoreFailed};
ghost use Rattle.disk.specs.Disk.{settled, written, cut};
ghost use Rattle.node_device.specs.Faults.{BeginCounts, ReceiveCounts, SendCounts, ReadCounts, StoreCounts};
ghost use Rattle.node_device.specs.Telling.{Did, OthersStay, StoppedIn, TellsOn, nows_in};
ghost use Rattle.node_device.specs.Outcomes.{Begins, Reads, Receives, Sends, Stores};
ghost use Rattle.node_device.specs.Wants.{Wants, begin_wants, receive_wants, send_wants, read_wants, store_wants};
ghost use Rattle.node_device.specs.Examples.{untold, tells, shows, holds, counts, sends, node_at};

use crate::{AreaRead, Received, Shipped, Stored};
use outside::Begun;

/// Counts of faults: a failure raises that of its kind alone, and nothing else raises one.
pub fn worked_counts()
    ensures store_failed { StoreCounts (counts 2 5) (counts 2 6) Stored.Failed }
    ensures uncounted { StoreCounts (counts 2 5) (counts 2 5) Stored.Failed → ⊥ }
    ensures counted_as_another { StoreCounts (counts 2 5) (counts 3 5) Stored.Failed → ⊥ }
    ensures counted_twice { StoreCounts (counts 2 5) (counts 3 6) Stored.Failed → ⊥ }
    ensures swallowed { StoreCounts (counts 2 5) (counts 2 6) Stored.Done → ⊥ }
    ensures swallowed_by_want { StoreCounts (counts 2 5) (counts 2 6) Stored.Memory → ⊥ }
    ensures swallowed_by_quiet { ReceiveCounts (counts 2 5) (counts 3 5) Received.Quiet → ⊥ }
    ensures read_failed { ReadCounts (counts 2 5) (counts 2 6) AreaRead.Failed }
    ensures at_the_greatest { StoreCounts (counts 0 (2 ^ 64 - 1)) (counts 0 (2 ^ 64 - 1)) Stored.Failed }
    ensures no_beginning_counted { BeginCounts (counts 2 5) (counts 2 5) Begun.Failed → ⊥ }
    ensures sent { SendCounts (sends 1) (sends 1) Shipped.Sent }
    ensures sent_and_counted { SendCounts (sends 1) (sends 2) Shipped.Sent → ⊥ }
    ensures send_failed { SendCounts (sends 1) (sends 2) Shipped.Failed }
    ensures no_send_counted { SendCounts (sends 1) (sends 1) Shipped.Failed → ⊥ }
    ensures send_counted_as_a_store { SendCounts (sends 1) (counts 1 2) Shipped.Failed → ⊥ }
    ensures send_wanted { SendCounts (sends 1) (sends 1) Shipped.Memory }
    ensures send_wanted_and_counted { SendCounts (sends 1) (sends 2) Shipped.Memory → ⊥ }
{}

/// Want of memory raises the count of wants, and no other answer does.
pub fn worked_counts_of_wants()
    ensures begin { Wants (begin_wants Begun.Memory) 4 5 }
    ensures begin_uncounted { Wants (begin_wants Begun.Memory) 4 4 → ⊥ }
    ensures begin_failed { Wants (begin_wants Begun.Failed) 4 4 }
    ensures begin_failed_as_a_want { Wants (begin_wants Begun.Failed) 4 5 → ⊥ }
    ensures receive { Wants (receive_wants Received.Memory) 4 5 }
    ensures quiet { Wants (receive_wants Received.Quiet) 4 5 → ⊥ }
    ensures send { Wants (send_wants Shipped.Memory) 4 5 }
    ensures sent { Wants (send_wants Shipped.Sent) 4 5 → ⊥ }
    ensures read { Wants (read_wants AreaRead.Memory) 4 5 }
    ensures got { Wants (read_wants (AreaRead.Got 3)) 4 5 → ⊥ }
    ensures store { Wants (store_wants Stored.Memory) 4 5 }
    ensures store_uncounted { Wants (store_wants Stored.Memory) 4 4 → ⊥ }
    ensures done_as_a_want { Wants (store_wants Stored.Done) 4 5 → ⊥ }
    ensures at_the_greatest { Wants (store_wants Stored.Memory) (2 ^ 64 - 1) (2 ^ 64 - 1) }
{}

/// Want of memory: nothing is done or recorded, and no fault is counted.
pub fn worked_wants()
    ensures counts_of_begin { BeginCounts (counts 2 5) (counts 2 5) Begun.Memory }
    ensures counts_of_receive { ReceiveCounts (counts 2 5) (counts 3 5) Received.Memory → ⊥ }
    ensures counts_of_read { ReadCounts (counts 2 5) (counts 2 6) AreaRead.Memory → ⊥ }
    ensures begin { Begins false false (tells []) (tells []) (node_at 7000) [] Begun.Memory }
    ensures begin_done { Begins false true (tells []) (tells []) (node_at 7000) [] Begun.Memory → ⊥ }
    ensures begin_recorded { Begins false false (tells []) (tells (BeginFailed (node_at 7000) [] ∷ [])) (node_at 7000) [] Begun.Memory → ⊥ }
    ensures begun_before { Begins true true (tells []) (tells []) (node_at 7000) [] Begun.Memory }
    ensures receive { Receives 300 (4 ∷ []) (tells []) (tells []) Received.Memory }
    ensures receive_recorded { Receives 300 (4 ∷ []) (tells []) (tells (ReceiveFailed 300 ∷ [])) Received.Memory → ⊥ }
    ensures send { Sends (node_at 7001) (4 ∷ []) (tells []) (tells []) Shipped.Memory }
    ensures send_recorded { Sends (node_at 7001) (4 ∷ []) (tells []) (tells (SendFailed (node_at 7001) (4 ∷ []) ∷ [])) Shipped.Memory → ⊥ }
    ensures read { Reads 0 1 (holds (1 ∷ 2 ∷ [])) (holds (1 ∷ 2 ∷ [])) (0 ∷ []) (0 ∷ []) AreaRead.Memory }
    ensures read_recorded { Reads 2 0 (tells []) (tells (StoreFailed (ReadAt 2 0 1) ∷ [])) (0 ∷ []) (0 ∷ []) AreaRead.Memory → ⊥ }
    ensures write { Stores (WriteAt 0 0 (9 ∷ [])) (Wrote 0 0 (9 ∷ [])) (holds (1 ∷ [])) (holds (1 ∷ [])) Stored.Memory }
    ensures write_done { Stores (WriteAt 0 0 (9 ∷ [])) (Wrote 0 0 (9 ∷ [])) (holds (1 ∷ []))
        (shows [] (written 0 (9 ∷ []) (settled (1 ∷ [])))) Stored.Memory → ⊥ }
    ensures cut { Stores (CutTo 0 0) (Cut 0 0) (holds (1 ∷ [])) (holds (1 ∷ [])) Stored.Memory }
    ensures cut_recorded { Stores (CutTo 0 0) (Cut 0 0) (holds (1 ∷ []))
        (shows (StoreFailed (CutTo 0 0) ∷ []) (settled (1 ∷ []))) Stored.Memory → ⊥ }
    ensures sync { Stores (Sync 0) (Synced 0) (tells []) (tells []) Stored.Memory }
    ensures stops_telling { Stores (Sync 0) (Synced 0) (tells []) None Stored.Memory → ⊥ }
{}

/// A device may stop telling where it gives a clock value, and nowhere else, and there only where its record is full of them; and none
/// begins to tell.
pub fn worked_telling()
    ensures now { OnSome (tells (Now 5 ∷ [])) (Did (tells []) (tells (Now 5 ∷ [])) (Now 5 ∷ [])) }
    ensures another_value { OnSome (tells (Now 6 ∷ [])) (Did (tells []) (tells (Now 6 ∷ [])) (Now 5 ∷ [])) → ⊥ }
    ensures now_unrecorded { OnSome (tells []) (Did (tells []) (tells []) (Now 5 ∷ [])) → ⊥ }
    ensures now_after_others { Did (tells (Now 4 ∷ [])) (tells (Now 4 ∷ Now 5 ∷ [])) (Now 5 ∷ []) }
    ensures now_instead_of_others { Did (tells (Now 4 ∷ [])) (tells (Now 5 ∷ [])) (Now 5 ∷ []) → ⊥ }
    ensures now_stops { OnSome untold (Did (tells []) None (Now 5 ∷ [])) }
    ensures now_untold { OnSome untold (Did None None (Now 5 ∷ [])) }
    ensures now_begins_to_tell { OnSome (tells (Now 5 ∷ [])) (Did None (tells (Now 5 ∷ [])) (Now 5 ∷ [])) → ⊥ }
    ensures two_of_three { nows_in (Now 5 ∷ Quiet 300 ∷ Now 6 ∷ []) ≡ 2 }
    ensures tells_on { TellsOn 1 (tells (Now 5 ∷ [])) (tells (Now 5 ∷ Now 6 ∷ [])) }
    ensures tells_more { TellsOn 1 (tells (Now 5 ∷ [])) (tells (Now 5 ∷ Now 6 ∷ Now 7 ∷ [])) → ⊥ }
    ensures other_acts { TellsOn 0 (tells []) (tells (Quiet 300 ∷ Synced 0 ∷ [])) }
    ensures stops_at_the_first { TellsOn 1 (tells []) None → ⊥ }
    ensures untold_stays { TellsOn 1 None None }
    ensures untold_begins { TellsOn 1 None (tells (Now 5 ∷ [])) → ⊥ }
    ensures stops_past_the_greatest { TellsOn (2 ^ 64) (tells []) None }
    ensures stops_at_the_greatest { TellsOn (2 ^ 64 - 1) (tells []) None → ⊥ }
    ensures begin_stops { Begins false true (tells []) None (node_at 7000) [] Begun.Ready → ⊥ }
    ensures receive_stops { Receives 300 (4 ∷ []) (tells []) None Received.Quiet → ⊥ }
    ensures send_stops { Sends (node_at 7001) (4 ∷ []) (tells []) None Shipped.Failed → ⊥ }
    ensures read_stops { Reads 0 0 (tells []) None (0 ∷ []) (0 ∷ []) (AreaRead.Got 0) → ⊥ }
    ensures sync_stops { Stores (Sync 0) (Synced 0) (tells []) None Stored.Done → ⊥ }
    ensures failed_sync_stops { Stores (Sync 0) (Synced 0) (tells []) None Stored.Failed → ⊥ }
    ensures failed_sync_untold { Stores (Sync 0) (Synced 0) None None Stored.Failed }
    ensures failed_sync_begins_to_tell { Stores (Sync 0) (Synced 0) None (tells []) Stored.Failed → ⊥ }
    ensures others_stop { OthersStay 0 (tells []) None → ⊥ }
    ensures others_untold { OthersStay 0 None None }
    ensures cut_short_stops { StoppedIn (tells []) None (Synced 0 ∷ []) → ⊥ }
    ensures cut_short_begins_to_tell { StoppedIn None (tells []) (Synced 0 ∷ []) → ⊥ }
{}

/// Beginnings, receives and sends, with the acts that they add to the record.
pub fn worked_messages()
    ensures begins { Begins false true (tells []) (tells (Began (node_at 7000) [] ∷ [])) (node_at 7000) [] Begun.Ready }
    ensures begins_unrecorded { Begins false true (tells []) (tells []) (node_at 7000) [] Begun.Ready → ⊥ }
    ensures cannot_begin { Begins false false (tells []) (tells (BeginFailed (node_at 7000) [] ∷ [])) (node_at 7000) [] Begun.Failed }
    ensures begun_though_it_failed { Begins false true (tells []) (tells (BeginFailed (node_at 7000) [] ∷ []))
        (node_at 7000) [] Begun.Failed → ⊥ }
    ensures took { Receives 300 (4 ∷ 5 ∷ 0 ∷ []) (tells []) (tells (Took 300 (node_at 7001) (4 ∷ 5 ∷ []) ∷ []))
        (Received.Datagram (node_at 7001) 2) }
    ensures took_other_bytes { Receives 300 (4 ∷ 5 ∷ 0 ∷ []) (tells []) (tells (Took 300 (node_at 7001) (4 ∷ 6 ∷ []) ∷ []))
        (Received.Datagram (node_at 7001) 2) → ⊥ }
    ensures took_more_than_fits { Receives 300 (4 ∷ []) (tells []) (tells (Took 300 (node_at 7001) (4 ∷ []) ∷ []))
        (Received.Datagram (node_at 7001) 2) → ⊥ }
    ensures quiet { Receives 300 (4 ∷ []) (tells []) (tells (Quiet 300 ∷ [])) Received.Quiet }
    ensures waited_otherwise { Receives 300 (4 ∷ []) (tells []) (tells (Quiet 200 ∷ [])) Received.Quiet → ⊥ }
    ensures receive_failed { Receives 300 (4 ∷ []) (tells []) (tells (ReceiveFailed 300 ∷ [])) Received.Failed }
    ensures lost { Sends (node_at 7001) (4 ∷ []) (tells []) (tells (SendFailed (node_at 7001) (4 ∷ []) ∷ [])) Shipped.Failed }
    ensures untold { Sends (node_at 7001) (4 ∷ []) None None Shipped.Sent }
    ensures begins_to_tell { Sends (node_at 7001) (4 ∷ []) None (tells []) Shipped.Sent → ⊥ }
{}

/// Writes and syncs of slot 0. One that failed may have been done, or not.
pub fn worked_stores()
    ensures wrote { Stores (WriteAt 0 0 (9 ∷ [])) (Wrote 0 0 (9 ∷ [])) (holds (1 ∷ []))
        (shows (Wrote 0 0 (9 ∷ []) ∷ []) (written 0 (9 ∷ []) (settled (1 ∷ [])))) Stored.Done }
    ensures nothing_pending { Stores (WriteAt 0 0 (9 ∷ [])) (Wrote 0 0 (9 ∷ [])) (holds (1 ∷ []))
        (shows (Wrote 0 0 (9 ∷ []) ∷ []) (settled (9 ∷ []))) Stored.Done → ⊥ }
    ensures synced { Stores (Sync 0) (Synced 0) (shows [] (written 0 (9 ∷ []) (settled (1 ∷ []))))
        (shows (Synced 0 ∷ []) (settled (9 ∷ []))) Stored.Done }
    ensures want_recorded { Stores (Sync 0) (Synced 0) (tells []) (tells (Synced 0 ∷ [])) Stored.Memory → ⊥ }
    ensures failed_done { Stores (WriteAt 0 0 (9 ∷ [])) (Wrote 0 0 (9 ∷ [])) (holds (1 ∷ 2 ∷ []))
        (shows (StoreFailed (WriteAt 0 0 (9 ∷ [])) ∷ []) (written 0 (9 ∷ []) (settled (1 ∷ 2 ∷ [])))) Stored.Failed }
    ensures failed_undone { Stores (WriteAt 0 0 (9 ∷ [])) (Wrote 0 0 (9 ∷ [])) (holds (1 ∷ 2 ∷ []))
        (shows (StoreFailed (WriteAt 0 0 (9 ∷ [])) ∷ []) (settled (1 ∷ 2 ∷ []))) Stored.Failed }
    ensures failed_elsewhere { Stores (WriteAt 0 0 (9 ∷ [])) (Wrote 0 0 (9 ∷ [])) (holds (1 ∷ 2 ∷ []))
        (shows (StoreFailed (WriteAt 0 0 (9 ∷ [])) ∷ []) (settled (1 ∷ 5 ∷ []))) Stored.Failed → ⊥ }
    ensures failed_unrecorded { Stores (Sync 0) (Synced 0) (tells []) (tells []) Stored.Failed → ⊥ }
    ensures cut_done { Stores (CutTo 0 1) (Cut 0 1) (holds (1 ∷ 2 ∷ [])) (shows (Cut 0 1 ∷ []) (cut 1 (settled (1 ∷ 2 ∷ [])))) Stored.Done }
    ensures own_area { OthersStay 0 (holds (1 ∷ [])) (holds (7 ∷ [])) }
    ensures another_area { OthersStay 1 (holds (1 ∷ [])) (holds (7 ∷ [])) → ⊥ }
    ensures no_area { OthersStay 2 (holds (1 ∷ [])) (holds (1 ∷ [])) }
    ensures pending_elsewhere { OthersStay 1 (shows [] (written 0 (9 ∷ []) (settled (1 ∷ [])))) (holds (9 ∷ [])) → ⊥ }
{}

/// Reads of slot 0, which holds three bytes.
pub fn worked_reads()
    ensures two_of_three { Reads 0 1 (holds (1 ∷ 2 ∷ 3 ∷ [])) (holds (1 ∷ 2 ∷ 3 ∷ [])) (0 ∷ 0 ∷ []) (2 ∷ 3 ∷ []) (AreaRead.Got 2) }
    ensures other_bytes { Reads 0 1 (holds (1 ∷ 2 ∷ 3 ∷ [])) (holds (1 ∷ 2 ∷ 3 ∷ [])) (0 ∷ 0 ∷ []) (1 ∷ 2 ∷ []) (AreaRead.Got 2) → ⊥ }
    ensures end_too_early { Reads 0 1 (holds (1 ∷ 2 ∷ 3 ∷ [])) (holds (1 ∷ 2 ∷ 3 ∷ [])) (0 ∷ []) (0 ∷ []) (AreaRead.Got 0) → ⊥ }
    ensures at_the_end { Reads 0 3 (holds (1 ∷ 2 ∷ 3 ∷ [])) (holds (1 ∷ 2 ∷ 3 ∷ [])) (0 ∷ []) (0 ∷ []) (AreaRead.Got 0) }
    ensures failed { Reads 2 0 (tells []) (tells (StoreFailed (ReadAt 2 0 1) ∷ [])) (0 ∷ []) (7 ∷ []) AreaRead.Failed }
    ensures failed_unrecorded { Reads 2 0 (tells []) (tells []) (0 ∷ []) (0 ∷ []) AreaRead.Failed → ⊥ }
{}

/// Calls that were cut short: what was done stands in the record.
pub fn worked_stops()
    ensures before_the_first { StoppedIn (tells []) (tells []) (Synced 0 ∷ Synced 1 ∷ []) }
    ensures between { StoppedIn (tells []) (tells (Synced 0 ∷ [])) (Synced 0 ∷ Synced 1 ∷ []) }
    ensures at_a_fault { StoppedIn (tells []) (tells (Synced 0 ∷ StoreFailed (Sync 1) ∷ [])) (Synced 0 ∷ Synced 1 ∷ []) }
    ensures untold { StoppedIn None None (Synced 0 ∷ []) }
    ensures another_record { StoppedIn (tells []) (tells (Quiet 5 ∷ [])) (Synced 0 ∷ Synced 1 ∷ []) → ⊥ }
{}
