ghost use Rattle.std.specs.Prelude.{◌≡◌, ℕ, ◌-◌, ◌^◌, true, false, [], ◌∷◌, None, Some, Ok, Err};
ghost use Rattle.std.specs.declared.io.Error.{Error};
ghost use Rattle.std.specs.declared.net.socket_addr.SocketAddrV4.{SocketAddrV4};
ghost use Rattle.std.specs.declared.net.socket_addr.SocketAddrV6.{SocketAddrV6};
ghost use Rattle.std.specs.declared.net.socket_addr.SocketAddr.TheVariants.{V4, V6};
ghost use Rattle.std.specs.Net.Addr.{ipv4_octets};
ghost use Rattle.std.specs.Net.Socket.{v4_ip, v4_port};
ghost use Rattle.node_device.specs.Examples.{node_at};
ghost use Rattle.os_edge.specs.Outcomes.{fault_outcome, receive_outcome, send_outcome, read_fault, read_outcome, store_outcome};
ghost use Rattle.os_edge.specs.Leaving.{unbegun, BeginLeaves, ReceiveLeaves, SendLeaves, ReadLeaves, StoreLeaves, SyncLeaves};
ghost use Rattle.os_edge.specs.DeviceExamples.{begun_after, failed, sent, stopped, wanted, plain, elsewhere, named, no_file};
ghost use Rattle.os_edge.specs.Looks.{are_areas};

use node_device::{AreaRead, Received, Shipped, Stored};
use outside::Begun;
use std::io::ErrorKind;

/// What answers of the system come to.
pub fn worked_answers()
    ensures datagram { (from : SocketAddrV4) → ipv4_octets (v4_ip from) ≡ 127 ∷ 0 ∷ 0 ∷ 1 ∷ [] → v4_port from ≡ 7000 →
        receive_outcome (Ok (2, V4 from)) ≡ Received.Datagram (node_at 7000) 2 }
    ensures ipv6 { (from : SocketAddrV6) → receive_outcome (Ok (2, V6 from)) ≡ Received.Failed }
    ensures no_wait { fault_outcome ErrorKind.WouldBlock ≡ Received.Quiet }
    ensures timed_out { fault_outcome ErrorKind.TimedOut ≡ Received.Quiet }
    ensures signal { fault_outcome ErrorKind.Interrupted ≡ Received.Quiet }
    ensures refused { fault_outcome ErrorKind.ConnectionRefused ≡ Received.Failed }
    ensures unknown { fault_outcome ErrorKind.Uncategorized ≡ Received.Failed }
    ensures whole { send_outcome 4 (Ok 4) ≡ Shipped.Sent }
    ensures part { send_outcome 4 (Ok 3) ≡ Shipped.Failed }
    ensures nothing_to_send { send_outcome 0 (Ok 0) ≡ Shipped.Sent }
    ensures at_the_end { read_outcome (Ok 0) ≡ Some (AreaRead.Got 0) }
    ensures read_failed { read_fault ErrorKind.Uncategorized ≡ Some AreaRead.Failed }
    ensures read_again { read_fault ErrorKind.Interrupted ≡ None }
    ensures store_failed { (fault : Error) → store_outcome {T = ℕ} (Err fault) ≡ Stored.Failed }
{}

/// What calls leave of a device.
pub fn worked_leaving()
    ensures begins { BeginLeaves unbegun (begun_after 0) Begun.Ready }
    ensures begins_not { BeginLeaves unbegun unbegun Begun.Ready → ⊥ }
    ensures begins_though_it_failed { BeginLeaves unbegun (begun_after 1) Begun.Failed → ⊥ }
    ensures cannot_begin_again { BeginLeaves (begun_after 1) (begun_after 2) Begun.Failed }
    ensures begins_anew { BeginLeaves (stopped (begun_after 1)) (begun_after 1) Begun.Ready }
    ensures begins_stopped { BeginLeaves (stopped (begun_after 1)) (stopped (begun_after 1)) Begun.Ready → ⊥ }
    ensures stays_stopped { BeginLeaves (stopped (begun_after 1)) (stopped (begun_after 2)) Begun.Failed }
    ensures goes_on_though_it_failed { BeginLeaves (stopped (begun_after 1)) (begun_after 2) Begun.Failed → ⊥ }
    ensures begin_wants { BeginLeaves (wanted 3 (begun_after 1)) (wanted 4 (begun_after 1)) Begun.Memory }
    ensures begin_wants_uncounted { BeginLeaves (begun_after 1) (begun_after 1) Begun.Memory → ⊥ }
    ensures begin_wants_and_fails { BeginLeaves (begun_after 1) (begun_after 2) Begun.Memory → ⊥ }
    ensures quiet { ReceiveLeaves (failed 2 5) (failed 2 5) Received.Quiet }
    ensures quiet_and_counted { ReceiveLeaves (failed 2 5) (failed 3 5) Received.Quiet → ⊥ }
    ensures receive_failed { ReceiveLeaves (failed 2 5) (failed 3 5) Received.Failed }
    ensures receive_counted_twice { ReceiveLeaves (failed 2 5) (failed 4 5) Received.Failed → ⊥ }
    ensures receive_wants { ReceiveLeaves (failed 2 5) (failed 2 5) Received.Memory → ⊥ }
    ensures send_failed { SendLeaves (sent 1) (sent 2) Shipped.Failed }
    ensures send_uncounted { SendLeaves (sent 1) (sent 1) Shipped.Failed → ⊥ }
    ensures read_failed { ReadLeaves (failed 2 5) (failed 2 6) AreaRead.Failed }
    ensures store_failed { StoreLeaves (failed 2 5) (failed 2 6) Stored.Failed }
    ensures store_counted_as_a_receive { StoreLeaves (failed 2 5) (failed 3 5) Stored.Failed → ⊥ }
    ensures done_and_counted { StoreLeaves (failed 2 5) (failed 2 6) Stored.Done → ⊥ }
    ensures at_the_greatest { StoreLeaves (failed 0 (2 ^ 64 - 1)) (failed 0 (2 ^ 64 - 1)) Stored.Failed }
    ensures synced { SyncLeaves (failed 2 5) (failed 2 5) Stored.Done }
    ensures sync_failed { SyncLeaves (failed 2 5) (stopped (failed 2 6)) Stored.Failed }
    ensures sync_failed_again { SyncLeaves (stopped (failed 2 6)) (stopped (failed 2 7)) Stored.Failed }
    ensures sync_goes_on { SyncLeaves (failed 2 5) (failed 2 6) Stored.Failed → ⊥ }
    ensures sync_uncounted { SyncLeaves (failed 2 5) (stopped (failed 2 5)) Stored.Failed → ⊥ }
    ensures write_stops { StoreLeaves (failed 2 5) (stopped (failed 2 6)) Stored.Failed → ⊥ }
{}

/// Which files are taken as the slots and the selector.
pub fn worked_looks()
    ensures none { are_areas None None None ≡ true }
    ensures made { are_areas (plain 1 0) (plain 2 0) (plain 3 0) ≡ true }
    ensures made_in_part { are_areas (plain 1 0) None None ≡ true }
    ensures in_use { are_areas (plain 1 40) (plain 2 900) (plain 3 1) ≡ true }
    ensures empty_selector { are_areas (plain 1 40) (plain 2 0) (plain 3 0) ≡ true }
    ensures no_selector { are_areas (plain 1 40) (plain 2 0) None ≡ false }
    ensures no_selector_by_slot1 { are_areas None (plain 2 900) None ≡ false }
    ensures no_slot { are_areas None (plain 2 900) (plain 3 1) ≡ true }
    ensures slot0_is_no_file { are_areas (no_file 1) (plain 2 0) (plain 3 0) ≡ false }
    ensures slot1_is_no_file { are_areas (plain 1 0) (no_file 2) (plain 3 0) ≡ false }
    ensures selector_is_no_file { are_areas (plain 1 0) (plain 2 0) (no_file 3) ≡ false }
    ensures two_names { are_areas (named 1 2) (plain 2 0) (plain 3 0) ≡ false }
    ensures no_name { are_areas (plain 1 0) (plain 2 0) (named 3 0) ≡ false }
    ensures slots_in_one { are_areas (plain 1 0) (plain 1 0) (plain 3 0) ≡ false }
    ensures slot0_as_selector { are_areas (plain 1 0) (plain 2 0) (plain 1 0) ≡ false }
    ensures slot1_as_selector { are_areas (plain 1 0) (plain 2 0) (plain 2 0) ≡ false }
    ensures same_number_elsewhere { are_areas (plain 1 0) (elsewhere 1 0) (plain 3 0) ≡ true }
{}
