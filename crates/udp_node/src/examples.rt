ghost use Rattle.std.specs.Prelude.{◌-◌, ◌^◌, [], ◌∷◌, None, Some, Ok, Err};
ghost use Rattle.disk.specs.Acts.{Now, Quiet, ReceiveFailed, Took};
ghost use Rattle.node_device.specs.Examples.{counts, sends, tells, untold};
ghost use Rattle.node_run.specs.Examples.{asked_by_1, at_port, candidate, kept_as, settings};
ghost use Rattle.slots.specs.Opening.{BadSelector, BadSlot, Fresh, Held, Refused};
ghost use Rattle.udp_node.specs.Causes.{CountsFault, CountsRun, IsOfATurn};
ghost use Rattle.udp_node.specs.Examples.{always, never};
ghost use Rattle.udp_node.specs.Listening.{IsCutOff, IsReceipt};
ghost use Rattle.udp_node.specs.Serving.{Meets, StartsFrom, StillTold};
ghost use Rattle.wire_messages.specs.KvBytes.{kv_command};

use crate::NodeFault;
use node_state::Refusal;

/// Counts of faults: a fault of a receive or of the areas is counted once, and a refusal and want of memory are not. A run may have lost
/// datagrams besides.
pub fn worked_causes()
    ensures receive { CountsFault (counts 2 5) (counts 3 5) NodeFault.Receive }
    ensures receive_uncounted { CountsFault (counts 2 5) (counts 2 5) NodeFault.Receive → ⊥ }
    ensures receive_counted_as_a_store { CountsFault (counts 2 5) (counts 2 6) NodeFault.Receive → ⊥ }
    ensures store { CountsFault (counts 2 5) (counts 2 6) NodeFault.Store }
    ensures refused { CountsFault (counts 2 5) (counts 2 5) (NodeFault.Refused Refusal.Selector) }
    ensures refused_and_counted { CountsFault (counts 2 5) (counts 2 6) (NodeFault.Refused Refusal.Selector) → ⊥ }
    ensures wanted_and_counted { CountsFault (counts 2 5) (counts 3 5) NodeFault.Memory → ⊥ }
    ensures lost { CountsRun {T = Unit {0}} (sends 1) (sends 3) (Ok tt) }
    ensures found_again { CountsRun {T = Unit {0}} (sends 3) (sends 1) (Ok tt) → ⊥ }
    ensures swallowed { CountsRun {T = Unit {0}} (counts 2 5) (counts 2 6) (Ok tt) → ⊥ }
    ensures ended_by_a_receive { CountsRun {T = Unit {0}} (counts 2 5) (counts 3 5) (Err NodeFault.Receive) }
    ensures ended_by_another { CountsRun {T = Unit {0}} (counts 2 5) (counts 3 5) (Err NodeFault.Store) → ⊥ }
    ensures of_a_turn { IsOfATurn NodeFault.Receive }
    ensures of_no_turn { IsOfATurn (NodeFault.Refused Refusal.Selector) → ⊥ }
{}

/// What a wait of 300 ms may bring, and how it may be cut off.
#[tactic(auto, unfolding(wire_fields::specs::Bytes::number_bytes, wire_fields::specs::Bytes::number_in, wire_fields::specs::Bytes::has_bytes, wire_fields::specs::Bytes::read_number))]
pub fn worked_listening()
    ensures quiet { IsReceipt settings kv_command 300 (Quiet 300) None }
    ensures another_wait { IsReceipt settings kv_command 300 (Quiet 299) None → ⊥ }
    ensures an_event_of_nothing { IsReceipt settings kv_command 300 (Quiet 300) (Some (candidate 1 1)) → ⊥ }
    ensures a_vote_is_asked { IsReceipt settings kv_command 300 (Took 300 (at_port 7001) asked_by_1) (Some (candidate 1 1)) }
    ensures left_out { IsReceipt settings kv_command 300 (Took 300 (at_port 7001) asked_by_1) None → ⊥ }
    ensures of_a_stranger { IsReceipt settings kv_command 300 (Took 300 (at_port 9) asked_by_1) None }
    ensures a_clock_value { IsReceipt settings kv_command 300 (Now 0) None → ⊥ }
    ensures not_done { IsCutOff 300 [] }
    ensures failed { IsCutOff 300 (ReceiveFailed 300 ∷ []) }
    ensures not_taken { IsCutOff 300 (Took 300 (at_port 7001) asked_by_1 ∷ []) }
    ensures after_a_quiet_wait { IsCutOff 300 (Quiet 300 ∷ []) → ⊥ }
    ensures failed_twice { IsCutOff 300 (ReceiveFailed 300 ∷ ReceiveFailed 300 ∷ []) → ⊥ }
{}

/// What a node starts from, and what is said of a device that stops telling: it may where its record is full of clock values alone.
pub fn worked_starts()
    ensures fresh { StartsFrom Fresh (kept_as 0 None) }
    ensures fresh_as_another { StartsFrom Fresh (kept_as 1 None) → ⊥ }
    ensures held { StartsFrom (Held (kept_as 1 (Some 1)) 3) (kept_as 1 (Some 1)) }
    ensures forgotten { StartsFrom (Held (kept_as 1 (Some 1)) 3) (kept_as 0 None) → ⊥ }
    ensures refused { StartsFrom (Refused BadSelector) (kept_as 0 None) → ⊥ }
    ensures accepted { Meets {T = Unit {0}} None (Err NodeFault.Receive) }
    ensures accepted_and_refused { Meets {T = Unit {0}} None (Err (NodeFault.Refused Refusal.Selector)) → ⊥ }
    ensures refused_and_heard { Meets {T = Unit {0}} (Some BadSelector) (Err NodeFault.Receive) → ⊥ }
    ensures refused_and_served { Meets {T = Unit {0}} (Some BadSelector) (Ok tt) → ⊥ }
    ensures refused_for_this { Meets {T = Unit {0}} (Some BadSelector) (Err (NodeFault.Refused Refusal.Selector)) }
    ensures refused_for_another { Meets {T = Unit {0}} (Some BadSlot) (Err (NodeFault.Refused Refusal.Selector)) → ⊥ }
    ensures tells { StillTold 1 (tells []) (tells (Now 0 ∷ [])) always }
    ensures tells_otherwise { StillTold 1 (tells []) (tells (Now 0 ∷ [])) never → ⊥ }
    ensures stops_at_the_first { StillTold 1 (tells []) untold always → ⊥ }
    ensures stops_at_the_greatest { StillTold (2 ^ 64 - 1) (tells []) untold always → ⊥ }
    ensures stops_past_the_greatest { StillTold (2 ^ 64) (tells []) untold never }
    ensures stops_with_one_before { StillTold (2 ^ 64 - 1) (tells (Now 0 ∷ [])) untold never }
    ensures begins_to_tell { StillTold 1 untold (tells []) always → ⊥ }
    ensures tells_none { StillTold 1 untold untold never }
{}
