ghost use Rattle.std.specs.Prelude.{[], ◌∷◌, ◌++◌, take};
ghost use Rattle.disk.specs.Acts.{Now, StoreFailed, Sync};
ghost use Rattle.node_acts.specs.Examples.{knowing};
ghost use Rattle.node_progress.specs.Examples.{booted, goes, halts, voter};
ghost use Rattle.node_records.specs.Examples.{answered, first, known, save, voted};
ghost use Rattle.node_run.specs.Examples.{three_turns};

/// Turns that a node goes through, and what it does not: of a turn more, with the state from before the vote, as if it were the node
/// from before the vote, and without the answer.
#[tactic(auto, unfolding(wire_fields::specs::Bytes::number_bytes, wire_fields::specs::Bytes::number_in, wire_fields::specs::Bytes::has_bytes, wire_fields::specs::Bytes::read_number))]
pub fn worked_turns()
    ensures begins { goes 0 booted first known (Now 0 ∷ []) }
    ensures votes { goes 3 voter voted (knowing 0 56 999 voted) (three_turns ++ (save ++ answered ∷ [])) }
    ensures a_turn_more { goes 4 voter voted (knowing 0 56 999 voted) (three_turns ++ (save ++ answered ∷ [])) → ⊥ }
    ensures not_kept { goes 3 voter first (knowing 0 56 999 voted) (three_turns ++ (save ++ answered ∷ [])) → ⊥ }
    ensures not_voted { goes 3 booted voted (knowing 0 56 999 voted) (three_turns ++ (save ++ answered ∷ [])) → ⊥ }
    ensures not_answered { goes 3 voter voted (knowing 0 56 999 voted) (three_turns ++ save) → ⊥ }
{}

/// Where a node halts: when the vote was heard, and at a fault in its save. Not with a turn less, nor when it answered before the save.
#[tactic(auto, unfolding(wire_fields::specs::Bytes::number_bytes, wire_fields::specs::Bytes::number_in, wire_fields::specs::Bytes::has_bytes, wire_fields::specs::Bytes::read_number))]
pub fn worked_halts()
    ensures heard { halts 3 three_turns }
    ensures in_the_save { halts 3 (three_turns ++ (take 1 save ++ StoreFailed (Sync 0) ∷ [])) }
    ensures a_turn_less { halts 2 three_turns → ⊥ }
    ensures answered_too_soon { halts 3 (three_turns ++ answered ∷ save) → ⊥ }
{}
