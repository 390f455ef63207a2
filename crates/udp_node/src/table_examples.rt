ghost use Rattle.std.specs.Prelude.{◌≡◌, [], ◌∷◌, ◌++◌, None, Some};
ghost use Rattle.node_acts.specs.Examples.{three_syncs};
ghost use Rattle.node_device.specs.Telling.{told_after};
ghost use Rattle.node_records.specs.Examples.{answered, save};
ghost use Rattle.node_run.specs.Examples.{asked_by_1};
ghost use Rattle.slots.specs.Opening.{BadSelector, OtherStack};
ghost use Rattle.udp_node.specs.Examples.{begun, begun_doubly, begun_held, config, ends, fresh_opening};
ghost use Rattle.udp_node.specs.Stacks.{ServedOn};
ghost use Rattle.udp_node.specs.TableExamples.{begun_acquire, begun_put, begun_table, refused_on_kv, refused_on_table, table_answered};
ghost use Rattle.udp_node.specs.TableExamples.{table_ends, table_opening, table_serves, table_turn, table_voting, turn_to};

use crate::NodeFault;
use node_body::Why;
use node_state::Refusal;
use vst_base::StackId;

/// A whole run of one turn of a node of the table of locks, which opens empty areas and votes for node 1. It is none with the answer of the
/// other stack, with its opening, by its request, or of a node of it.
pub fn worked_tables()
    ensures votes { table_serves (table_opening ++ table_voting) }
    ensures answered_as_the_other { table_serves (table_opening ++ (table_turn ++ (save ++ answered ∷ []))) → ⊥ }
    ensures opened_as_the_other { table_serves (fresh_opening ++ table_voting) → ⊥ }
    ensures asked_by_the_other { table_serves (table_opening ++ (turn_to asked_by_1 ++ (save ++ table_answered ∷ []))) → ⊥ }
    ensures of_the_other { ServedOn StackId.KvRaft config 1 begun (told_after begun (table_opening ++ table_voting)) → ⊥ }
{}

/// Areas by the stack of the node that opens them, which are refused where they are the other's, also with its commands.
#[tactic(auto, unfolding(wire_fields::specs::Bytes::number_bytes, wire_fields::specs::Bytes::number_in, wire_fields::specs::Bytes::has_bytes, wire_fields::specs::Bytes::read_number, node_body::specs::Journals::from_gate))]
pub fn worked_table_areas()
    ensures fresh { refused_on_table begun ≡ None }
    ensures first { refused_on_table begun_table ≡ None }
    ensures an_acquire { refused_on_table begun_acquire ≡ None }
    ensures a_put { refused_on_table begun_put ≡ Some (OtherStack 5 7) }
    ensures two_selectors { refused_on_table begun_doubly ≡ Some BadSelector }
    ensures a_put_of_its_own { refused_on_kv begun_put ≡ None }
    ensures an_acquire_of_the_other { refused_on_kv begun_acquire ≡ Some (OtherStack 7 5) }
    ensures ends_refused { table_ends (NodeFault.Refused (Refusal.Slot (Why.Stack 5 7))) begun_held three_syncs }
    ensures ends_refused_for_another { table_ends (NodeFault.Refused Refusal.Selector) begun_held three_syncs → ⊥ }
    ensures ends_refused_of_its_own { table_ends (NodeFault.Refused (Refusal.Slot (Why.Stack 5 7))) begun_table three_syncs → ⊥ }
    ensures ends_refused_on_kv { ends (NodeFault.Refused (Refusal.Slot (Why.Stack 7 5))) begun_table three_syncs }
{}
