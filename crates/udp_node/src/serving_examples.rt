ghost use Rattle.std.specs.Prelude.{◌≡◌, [], ◌∷◌, ◌++◌, None, Some, drop, length, take};
ghost use Rattle.disk.specs.Acts.{Now, ReceiveFailed, StoreFailed, Sync};
ghost use Rattle.node_acts.specs.Examples.{three_syncs};
ghost use Rattle.node_device.specs.Telling.{told_after};
ghost use Rattle.node_records.specs.Examples.{answered, first, save};
ghost use Rattle.node_run.specs.Examples.{three_turns};
ghost use Rattle.slots.specs.Opening.{BadSelector, Fresh, Held, OtherStack, Refused};
ghost use Rattle.udp_node.specs.Examples.{begun, begun_doubly, begun_elsewhere, begun_held, config, ends, found, fresh_opening};
ghost use Rattle.udp_node.specs.Examples.{opens_by, serves, voting};
ghost use Rattle.udp_node.specs.Stacks.{ServedOn, refused_areas};

use crate::NodeFault;
use node_body::Why;
use node_state::Refusal;
use vst_base::StackId;

/// A whole run of three turns: node 0 opens empty areas, passes over a datagram that is none and one of a stranger, and saves and gives
/// its vote to node 1. It is no run of a turn less or more, with the answer twice, without it or before the last sync of its save,
/// without the last sync of the opening, or in another directory.
pub fn worked_serving()
    ensures acts { length (told_after begun (fresh_opening ++ voting)).acts ≡ 24 }
    ensures votes { serves 3 (fresh_opening ++ voting) }
    ensures a_turn_less { serves 2 (fresh_opening ++ voting) → ⊥ }
    ensures a_turn_more { serves 4 (fresh_opening ++ voting) → ⊥ }
    ensures answered_twice { serves 3 (fresh_opening ++ (voting ++ answered ∷ [])) → ⊥ }
    ensures not_answered { serves 3 (fresh_opening ++ (three_turns ++ save)) → ⊥ }
    ensures answered_before_the_sync { serves 3 (fresh_opening ++ (three_turns ++ (take 3 save ++ answered ∷ drop 3 save))) → ⊥ }
    ensures a_sync_of_the_opening_less { serves 3 (take 10 fresh_opening ++ voting) → ⊥ }
    ensures in_another_directory { ServedOn StackId.KvRaft config 3 begun_elsewhere (told_after begun (fresh_opening ++ voting)) → ⊥ }
{}

/// Runs that a fault ended: in the first receive, in the first sync, and before it for want of memory. A receive that waited otherwise
/// ends none, and no receive fails in an opening.
pub fn worked_faults()
    ensures in_a_receive { ends NodeFault.Receive begun (fresh_opening ++ (Now 0 ∷ Now 0 ∷ ReceiveFailed 300 ∷ [])) }
    ensures after_another_wait { ends NodeFault.Receive begun (fresh_opening ++ (Now 0 ∷ Now 0 ∷ ReceiveFailed 299 ∷ [])) → ⊥ }
    ensures in_the_first_sync { ends NodeFault.Store begun (StoreFailed (Sync 0) ∷ []) }
    ensures in_a_sync_as_a_receive { ends NodeFault.Receive begun (StoreFailed (Sync 0) ∷ []) → ⊥ }
    ensures for_want_of_memory { ends NodeFault.Memory begun [] }
{}

/// Areas that are refused, which were synced and no more, and what others open as.
#[tactic(auto, unfolding(wire_fields::specs::Bytes::number_bytes, wire_fields::specs::Bytes::number_in, wire_fields::specs::Bytes::has_bytes, wire_fields::specs::Bytes::read_number, node_body::specs::Journals::from_gate))]
pub fn worked_areas()
    ensures refused { ends (NodeFault.Refused Refusal.Selector) begun_doubly three_syncs }
    ensures refused_unsynced { ends (NodeFault.Refused Refusal.Selector) begun_doubly (take 2 three_syncs) → ⊥ }
    ensures refused_for_another { ends (NodeFault.Refused (Refusal.Slot Why.Slot)) begun_doubly three_syncs → ⊥ }
    ensures refused_though_fresh { ends (NodeFault.Refused Refusal.Selector) begun three_syncs → ⊥ }
    ensures fresh { found begun ≡ Fresh }
    ensures held { found begun_held ≡ Held first 0 }
    ensures two_selectors { found begun_doubly ≡ Refused BadSelector }
    ensures opens_fresh { opens_by begun ≡ fresh_opening }
    ensures opens_held { opens_by begun_held ≡ three_syncs }
    ensures why_fresh { refused_areas StackId.KvRaft config begun ≡ None }
    ensures why_held { refused_areas StackId.KvRaft config begun_held ≡ None }
    ensures why_two_selectors { refused_areas StackId.KvRaft config begun_doubly ≡ Some BadSelector }
    ensures why_of_the_other_stack { refused_areas StackId.TableRaft config begun_held ≡ Some (OtherStack 5 7) }
{}
