ghost use Rattle.std.specs.Prelude.{[], ◌∷◌, ◌++◌, Ok, Err, codes, take};
ghost use Rattle.disk.specs.Acts.{Now, ReceiveFailed, StoreFailed, Sync};
ghost use Rattle.node_acts.specs.Examples.{three_syncs};
ghost use Rattle.commands.specs.NodeExamples.{broken_third, comes_from, selecting, untouched, words, words_for};
ghost use Rattle.node_device.specs.Examples.{counts};
ghost use Rattle.node_device.specs.Telling.{told_after};
ghost use Rattle.udp_node.specs.Examples.{begun, begun_doubly, fresh_opening, voting};

use crate::Trouble;
use node_body::Why;
use node_config::worked_texts;
use node_state::Refusal;
use udp_node::{NodeFault, worked_areas, worked_faults, worked_serving};

/// Three turns of a node whose input and device tell, from its words to the last act: its vote for node 1. They are no two or four turns,
/// none in another directory, and none where a store call failed or the areas are refused.
pub fn worked_turns()
    ensures served { comes_from words untouched (told_after begun (fresh_opening ++ voting)) (counts 1 1) (Ok tt) }
    ensures a_turn_less { comes_from (words_for 2 (codes "d")) untouched (told_after begun (fresh_opening ++ voting))
        (counts 1 1) (Ok tt) → ⊥ }
    ensures a_turn_more { comes_from (words_for 4 (codes "d")) untouched (told_after begun (fresh_opening ++ voting))
        (counts 1 1) (Ok tt) → ⊥ }
    ensures in_another_directory { comes_from (words_for 3 (codes "e")) untouched (told_after begun (fresh_opening ++ voting))
        (counts 1 1) (Ok tt) → ⊥ }
    ensures with_a_fault { comes_from words untouched (told_after begun (fresh_opening ++ voting)) (counts 1 2) (Ok tt) → ⊥ }
    ensures on_refused_areas { comes_from words (selecting (0 ∷ 0 ∷ [])) (told_after begun (fresh_opening ++ voting))
        (counts 1 1) (Ok tt) → ⊥ }
{
    worked_texts();
    worked_serving();
    worked_areas();
}

/// The same node, ended by a fault: in the receive of its first turn or of its third, in the first sync of its opening, before that for
/// want of memory, and for a selector of two bytes. A receive that waited otherwise ends none, and areas are refused after three syncs,
/// for what is wrong with them.
pub fn worked_endings()
    ensures in_a_receive { comes_from words untouched (told_after begun (fresh_opening ++ (Now 0 ∷ Now 0 ∷ ReceiveFailed 300 ∷ [])))
        (counts 2 1) (Err (Trouble.Ended NodeFault.Receive)) }
    ensures in_the_third_turn { comes_from words untouched (told_after begun (fresh_opening ++ broken_third)) (counts 2 1)
        (Err (Trouble.Ended NodeFault.Receive)) }
    ensures after_another_wait { comes_from words untouched (told_after begun (fresh_opening ++ (Now 0 ∷ Now 0 ∷ ReceiveFailed 299 ∷ [])))
        (counts 2 1) (Err (Trouble.Ended NodeFault.Receive)) → ⊥ }
    ensures in_the_first_sync { comes_from words untouched (told_after begun (StoreFailed (Sync 0) ∷ [])) (counts 1 2)
        (Err (Trouble.Ended NodeFault.Store)) }
    ensures in_a_sync_as_a_receive { comes_from words untouched (told_after begun (StoreFailed (Sync 0) ∷ [])) (counts 2 1)
        (Err (Trouble.Ended NodeFault.Receive)) → ⊥ }
    ensures for_want_of_memory { comes_from words untouched begun (counts 1 1) (Err (Trouble.Ended NodeFault.Memory)) }
    ensures refused { comes_from words (selecting (0 ∷ 0 ∷ [])) (told_after begun_doubly three_syncs) (counts 1 1)
        (Err (Trouble.Ended (NodeFault.Refused Refusal.Selector))) }
    ensures refused_unsynced { comes_from words (selecting (0 ∷ 0 ∷ [])) (told_after begun_doubly (take 2 three_syncs)) (counts 1 1)
        (Err (Trouble.Ended (NodeFault.Refused Refusal.Selector))) → ⊥ }
    ensures refused_for_another { comes_from words (selecting (0 ∷ 0 ∷ [])) (told_after begun_doubly three_syncs) (counts 1 1)
        (Err (Trouble.Ended (NodeFault.Refused (Refusal.Slot Why.Slot)))) → ⊥ }
    ensures refused_though_fresh { comes_from words untouched (told_after begun three_syncs) (counts 1 1)
        (Err (Trouble.Ended (NodeFault.Refused Refusal.Selector))) → ⊥ }
    ensures heard_on_refused_areas { comes_from words (selecting (0 ∷ 0 ∷ [])) (told_after begun_doubly three_syncs) (counts 2 1)
        (Err (Trouble.Ended NodeFault.Receive)) → ⊥ }
{
    worked_texts();
    worked_faults();
    worked_areas();
}
