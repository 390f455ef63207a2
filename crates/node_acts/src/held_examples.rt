ghost use Rattle.std.specs.Prelude.{◌≡◌, [], ◌∷◌, ◌++◌, None, Some};
ghost use Rattle.disk.specs.Areas.{changed};
ghost use Rattle.disk.specs.Disk.{written};
ghost use Rattle.node_acts.specs.Examples.{at_rest, finds, holds, is_as_found, known_as, knowing, state};
ghost use Rattle.node_acts.specs.StateActs.{first_kept};
ghost use Rattle.node_body.specs.Examples.{first_slot, new_held, old_first, old_held, old_voted, other_cluster, vote_record, voted_slot, who_as};

use node_body::Version;

/// Areas that hold a state as a node knows, and where one thing is otherwise: the gate, how many records may follow, the selector, the
/// state, the version of the slot, whose it is, a write that is pending, and a second selector.
#[tactic(auto, unfolding(wire_fields::specs::Bytes::number_bytes, wire_fields::specs::Bytes::number_in, wire_fields::specs::Bytes::has_bytes, wire_fields::specs::Bytes::read_number, node_body::specs::Journals::from_gate))]
pub fn worked_holding()
    ensures first { holds (knowing 0 38 1000 first_kept) first_kept (at_rest (first_slot ++ 0 ∷ []) [] (0 ∷ [])) }
    ensures after_a_record { holds (knowing 0 56 999 (state 1 (Some 1) [])) (state 1 (Some 1) [])
        (at_rest (first_slot ++ 1 ∷ (vote_record ++ 0 ∷ [])) [] (0 ∷ [])) }
    ensures another_gate { holds (knowing 0 37 1000 first_kept) first_kept (at_rest (first_slot ++ 0 ∷ []) [] (0 ∷ [])) → ⊥ }
    ensures another_place { holds (knowing 0 38 999 first_kept) first_kept (at_rest (first_slot ++ 0 ∷ []) [] (0 ∷ [])) → ⊥ }
    ensures another_selector { holds (knowing 2 38 1000 first_kept) first_kept (at_rest (first_slot ++ 0 ∷ []) [] (0 ∷ [])) → ⊥ }
    ensures another_state { holds (knowing 0 38 1000 first_kept) (state 1 (Some 1) []) (at_rest (first_slot ++ 0 ∷ []) [] (0 ∷ [])) → ⊥ }
    ensures another_term { holds (knowing 0 38 1000 (state 1 None [])) first_kept (at_rest (first_slot ++ 0 ∷ []) [] (0 ∷ [])) → ⊥ }
    ensures of_version_one { holds (knowing 0 22 1000 first_kept) first_kept (at_rest (old_first ++ 0 ∷ []) [] (0 ∷ [])) → ⊥ }
    ensures of_another_name { holds (known_as (who_as 0 3 other_cluster) first_kept) first_kept
        (at_rest (first_slot ++ 0 ∷ []) [] (0 ∷ [])) → ⊥ }
    ensures pending { holds (knowing 0 38 1000 first_kept) first_kept
        (changed (at_rest (first_slot ++ 0 ∷ []) [] (0 ∷ [])) 1 (written 0 (0 ∷ []))) → ⊥ }
    ensures two_selectors { holds (knowing 0 38 1000 first_kept) first_kept (at_rest (first_slot ++ 0 ∷ []) [] (0 ∷ 0 ∷ [])) → ⊥ }
{}

/// What is known of a slot that was found: its last gate, and after a slot of version 1 that of the base which it becomes.
#[tactic(auto, unfolding(wire_fields::specs::Bytes::number_bytes))]
pub fn worked_finding()
    ensures a_base { finds 0 39 Version.Two (new_held first_kept 1000 0) ≡ knowing 0 38 1000 first_kept }
    ensures with_a_record_behind { finds 0 57 Version.Two (new_held first_kept 1000 18) ≡ knowing 0 38 1000 first_kept }
    ensures of_version_one { finds 255 22 Version.One (old_held (state 1 (Some 1) []) 1000 0) ≡ knowing 0 38 1000 (state 1 (Some 1) []) }
{}

/// What an opening leaves: what was read, or what opens as the state that was found; where area 2 was empty what is fresh, or opens as
/// the first state. It forgets no vote, and gives none.
#[tactic(auto, unfolding(wire_fields::specs::Bytes::number_bytes, wire_fields::specs::Bytes::number_in, wire_fields::specs::Bytes::has_bytes, wire_fields::specs::Bytes::read_number, node_body::specs::Journals::from_gate))]
pub fn worked_found()
    ensures as_read { is_as_found (at_rest [] [] (0 ∷ 0 ∷ [])) [] [] (0 ∷ 0 ∷ []) }
    ensures refused_and_changed { is_as_found (at_rest [] [] (0 ∷ 0 ∷ [])) (first_slot ++ 0 ∷ []) [] (0 ∷ []) → ⊥ }
    ensures fresh { is_as_found (at_rest [] [] []) (first_slot ++ 0 ∷ []) [] [] }
    ensures first { is_as_found (at_rest [] [] []) (first_slot ++ 0 ∷ []) (first_slot ++ 0 ∷ []) (0 ∷ []) }
    ensures voted { is_as_found (at_rest [] [] []) (voted_slot ++ 0 ∷ []) [] (0 ∷ []) → ⊥ }
    ensures renewed { is_as_found (at_rest old_voted [] (0 ∷ [])) old_voted (voted_slot ++ 0 ∷ []) (1 ∷ []) }
    ensures forgotten { is_as_found (at_rest old_voted [] (0 ∷ [])) old_voted (first_slot ++ 0 ∷ []) (1 ∷ []) → ⊥ }
    ensures made_fresh { is_as_found (at_rest old_voted [] (0 ∷ [])) old_voted [] [] → ⊥ }
{}
