ghost use Rattle.std.specs.Prelude.{◌≡◌, [], ◌∷◌, ◌++◌, Some};
ghost use Rattle.act_disks.specs.Examples.{FirstFits, NodeTakes, asked, node_image, node_refusal, nothing_left, puts, read_after, three_acts, two_acts};
ghost use Rattle.node_body.specs.Examples.{cluster};

use act_network::ActStep;
use vst_base::{Step, StepRefusal};

/// A node is elected, and stops after three of the four acts of its next turn, whose gate is written and not yet synced: the turn counts
/// where the gate is found, and else never. It counts by no number of acts.
#[tactic(auto, unfolding(wire_fields::specs::Bytes::number_bytes, wire_fields::specs::Bytes::number_in, wire_fields::specs::Bytes::has_bytes, wire_fields::specs::Bytes::read_number, node_body::specs::Journals::from_gate))]
pub fn worked_stops()
    ensures not_yet { node_image (asked three_acts) ≡ Step.Tick 0 ∷ [] }
    ensures busy { node_refusal (asked []) (ActStep.Tick 0) ≡ Some StepRefusal.NodeBusy }
    ensures gate_is_found { node_image (asked (three_acts ++ ActStep.Stop 0 (read_after (asked three_acts)) ∷ [])) ≡
        Step.Tick 0 ∷ Step.In 0 puts ∷ Step.Crash 0 ∷ [] }
    ensures gate_is_not_found { node_image (asked (three_acts ++ ActStep.Stop 0 (read_after (asked two_acts)) ∷ [])) ≡
        Step.Tick 0 ∷ Step.Crash 0 ∷ [] }
{}

/// The premises of the laws, of a node that stops and starts again: its first state has bytes, under a name of 16 bytes and not under none,
/// and its areas are left as a crash may leave them.
#[tactic(auto, unfolding(wire_fields::specs::Bytes::number_bytes, wire_fields::specs::Bytes::number_in, wire_fields::specs::Bytes::has_bytes, wire_fields::specs::Bytes::read_number, node_body::specs::Journals::from_gate))]
pub fn worked_premises()
    ensures first_fits { FirstFits cluster }
    ensures no_short_name { FirstFits [] → ⊥ }
    ensures taken { NodeTakes (ActStep.Stop 0 (read_after []) ∷ ActStep.Reboot 0 ∷ []) }
    ensures not_left { NodeTakes (ActStep.Stop 0 nothing_left ∷ []) → ⊥ }
    ensures not_up { NodeTakes (ActStep.Reboot 0 ∷ []) → ⊥ }
{}
