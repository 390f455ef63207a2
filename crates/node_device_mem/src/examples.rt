ghost use Rattle.std.specs.Prelude.{◌≡◌, ℕ, true, false, [], ◌∷◌, None, Some};
ghost use Rattle.std.specs.Global.{Vec};
ghost use Rattle.disk.specs.Acts.{WriteAt, Sync, Now, Wrote, Synced, StoreFailed};
ghost use Rattle.disk.specs.Disk.{settled, written};
ghost use Rattle.node_device.specs.Examples.{holds, node_at, shows, tells};
ghost use Rattle.node_device_mem.specs.Examples.{quiet_then};
ghost use Rattle.node_device_mem.specs.Histories.{clock_value, nows_from};
ghost use Rattle.node_device_mem.specs.Scripts.{BeginsBy, Brings, ReadsBy, ReceivesBy, SendsBy, StoresBy, StoresExactly, cut_to, next_arrival, received_after};

use crate::Arrival;
use node_device::{AreaRead, Received, Shipped, Stored};
use outside::Begun;

/// Values of a scripted clock, of which the last comes again.
pub fn worked_clocks()
    ensures first { clock_value (5 ∷ 9 ∷ []) 0 ≡ 5 }
    ensures second { clock_value (5 ∷ 9 ∷ []) 1 ≡ 9 }
    ensures last_again { clock_value (5 ∷ 9 ∷ []) 7 ≡ 9 }
    ensures without_a_script { clock_value [] 3 ≡ 0 }
    ensures in_a_row { nows_from (5 ∷ 9 ∷ []) 0 3 ≡ Now 5 ∷ Now 9 ∷ Now 9 ∷ [] }
{}

/// What a receive brings, into a buffer of two bytes.
pub fn worked_receives()
    ensures whole { Brings (Some (node_at 7001, 4 ∷ [])) (4 ∷ 0 ∷ []) (Received.Datagram (node_at 7001) 1) }
    ensures cut_to_the_buffer { Brings (Some (node_at 7001, 4 ∷ 5 ∷ 6 ∷ [])) (4 ∷ 5 ∷ []) (Received.Datagram (node_at 7001) 2) }
    ensures cut_too_short { Brings (Some (node_at 7001, 4 ∷ 5 ∷ 6 ∷ [])) (4 ∷ 0 ∷ []) (Received.Datagram (node_at 7001) 1) → ⊥ }
    ensures other_bytes { Brings (Some (node_at 7001, 4 ∷ [])) (5 ∷ 0 ∷ []) (Received.Datagram (node_at 7001) 1) → ⊥ }
    ensures another_source { Brings (Some (node_at 7001, 4 ∷ [])) (4 ∷ 0 ∷ []) (Received.Datagram (node_at 7002) 1) → ⊥ }
    ensures quiet { Brings None (0 ∷ 0 ∷ []) Received.Quiet }
    ensures quiet_though_one_came { Brings (Some (node_at 7001, 4 ∷ [])) (0 ∷ 0 ∷ []) Received.Quiet → ⊥ }
    ensures out_of_nothing { Brings None (4 ∷ 0 ∷ []) (Received.Datagram (node_at 7001) 1) → ⊥ }
    ensures front { cut_to 2 (Some (node_at 7001, 4 ∷ 5 ∷ 6 ∷ [])) ≡ Some (node_at 7001, 4 ∷ 5 ∷ []) }
    ensures one_more { received_after 3 (Received.Datagram (node_at 7001) 1) ≡ 4 }
    ensures a_quiet_one_too { received_after 3 Received.Quiet ≡ 4 }
    ensures kept_by_a_failure { received_after 3 Received.Failed ≡ 3 }
{}

/// Writes and syncs of slot 0: one that failed did what it is recorded to have done.
pub fn worked_failures()
    ensures failed_and_done { StoresExactly (WriteAt 0 0 (9 ∷ [])) (Wrote 0 0 (9 ∷ [])) (holds (1 ∷ 2 ∷ []))
        (shows (StoreFailed (WriteAt 0 0 (9 ∷ [])) ∷ []) (written 0 (9 ∷ []) (settled (1 ∷ 2 ∷ [])))) Stored.Failed }
    ensures failed_and_undone { StoresExactly (WriteAt 0 0 (9 ∷ [])) (Wrote 0 0 (9 ∷ [])) (holds (1 ∷ 2 ∷ []))
        (shows (StoreFailed (WriteAt 0 0 (9 ∷ [])) ∷ []) (settled (1 ∷ 2 ∷ []))) Stored.Failed → ⊥ }
    ensures failed_sync { StoresExactly (Sync 0) (Synced 0) (shows [] (written 0 (9 ∷ []) (settled (1 ∷ []))))
        (shows (StoreFailed (Sync 0) ∷ []) (written 0 (9 ∷ []) (settled (1 ∷ [])))) Stored.Failed }
    ensures failed_unrecorded { StoresExactly (Sync 0) (Synced 0) (tells []) (tells []) Stored.Failed → ⊥ }
{}

/// A call that is due fails, and no other does; either may want memory.
pub fn worked_dues()
    ensures begins { BeginsBy false Begun.Ready }
    ensures begins_where_due { BeginsBy true Begun.Ready → ⊥ }
    ensures begin_fails { BeginsBy true Begun.Failed }
    ensures begin_fails_unasked { BeginsBy false Begun.Failed → ⊥ }
    ensures begin_wants { BeginsBy true Begun.Memory }
    ensures receives { ReceivesBy false (Received.Datagram (node_at 7001) 1) }
    ensures receives_where_due { ReceivesBy true (Received.Datagram (node_at 7001) 1) → ⊥ }
    ensures quiet_where_due { ReceivesBy true Received.Quiet → ⊥ }
    ensures receive_fails_unasked { ReceivesBy false Received.Failed → ⊥ }
    ensures sends { SendsBy false Shipped.Sent }
    ensures sends_where_due { SendsBy true Shipped.Sent → ⊥ }
    ensures send_fails_unasked { SendsBy false Shipped.Failed → ⊥ }
    ensures reads { ReadsBy false (AreaRead.Got 3) }
    ensures reads_where_due { ReadsBy true (AreaRead.Got 3) → ⊥ }
    ensures read_fails_unasked { ReadsBy false AreaRead.Failed → ⊥ }
    ensures stores { StoresBy false Stored.Done }
    ensures stores_where_due { StoresBy true Stored.Done → ⊥ }
    ensures store_fails_unasked { StoresBy false Stored.Failed → ⊥ }
    ensures store_wants { StoresBy true Stored.Memory }
    ensures nothing_arrives { next_arrival [] 0 ≡ None }
    ensures a_quiet_arrival { next_arrival (Arrival.Quiet ∷ []) 0 ≡ None }
    ensures a_datagram_after_it { (bytes : Vec ℕ) → next_arrival (quiet_then bytes) 1 ≡ Some (node_at 7001, bytes.items) }
    ensures the_quiet_one_before { (bytes : Vec ℕ) → next_arrival (quiet_then bytes) 0 ≡ None }
    ensures none_after_it { (bytes : Vec ℕ) → next_arrival (quiet_then bytes) 2 ≡ None }
{}
