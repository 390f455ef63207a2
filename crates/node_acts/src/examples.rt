ghost use Rattle.std.specs.Prelude.{◌≡◌, true, false, [], ◌∷◌, ◌++◌, None, Some};
ghost use Rattle.disk.specs.Acts.{Synced, Wrote};
ghost use Rattle.node_acts.specs.Examples.{knowing, no_ops, opens, saves, state, then_knows, three_syncs, whole};
ghost use Rattle.node_acts.specs.StateActs.{first_kept};
ghost use Rattle.node_acts.specs.Stores.{Continues, common, is_held};
ghost use Rattle.node_body.specs.Examples.{first_slot, no_op, number_of_eight, number_of_four, old_first, old_voted, vote_record, voted_slot};

/// What is known of a log by its terms, and when a state is held already.
pub fn worked_terms()
    ensures none { common [] (no_ops (1 ∷ [])) ≡ 0 }
    ensures all { common (1 ∷ 1 ∷ []) (no_ops (1 ∷ 1 ∷ 2 ∷ [])) ≡ 2 }
    ensures up_to_a_difference { common (1 ∷ 1 ∷ 2 ∷ 3 ∷ []) (no_ops (1 ∷ 1 ∷ 3 ∷ 3 ∷ [])) ≡ 2 }
    ensures held { is_held (knowing 0 38 1000 (state 2 (Some 1) (1 ∷ 2 ∷ []))) (state 2 (Some 1) (1 ∷ 2 ∷ [])) ≡ true }
    ensures a_later_term { is_held (knowing 0 38 1000 (state 2 None [])) (state 3 None []) ≡ false }
    ensures a_vote { is_held (knowing 0 38 1000 (state 2 None [])) (state 2 (Some 0) []) ≡ false }
    ensures an_entry_more { is_held (knowing 0 38 1000 (state 2 None (1 ∷ []))) (state 2 None (1 ∷ 2 ∷ [])) ≡ false }
    ensures an_entry_less { is_held (knowing 0 38 1000 (state 2 None (1 ∷ 2 ∷ []))) (state 2 None (1 ∷ [])) ≡ false }
    ensures continues { Continues (knowing 0 38 1000 (state 2 None (1 ∷ 2 ∷ []))) (state 2 None (1 ∷ 2 ∷ [])) (state 3 None (1 ∷ 3 ∷ [])) }
{}

/// The acts of saves, and what is known after them.
#[tactic(auto, unfolding(wire_fields::specs::Bytes::number_bytes))]
pub fn worked_saves()
    ensures a_record { saves (knowing 0 38 1000 first_kept) (state 1 (Some 1) []) ≡
        Wrote 0 39 (vote_record ++ 0 ∷ []) ∷ Synced 0 ∷ Wrote 0 38 (1 ∷ []) ∷ Synced 0 ∷ [] }
    ensures after_a_record { then_knows (knowing 0 38 1000 first_kept) (state 1 (Some 1) []) ≡ knowing 0 56 999 (state 1 (Some 1) []) }
    ensures an_entry_more { saves (knowing 5 56 999 (state 1 (Some 1) (1 ∷ []))) (state 1 (Some 1) (1 ∷ 1 ∷ [])) ≡
        Wrote 1 57 (number_of_eight 1 ++ (1 ∷ (number_of_four 1 ++ (number_of_four 1 ++ (no_op ++ 0 ∷ []))))) ∷ Synced 1
        ∷ Wrote 1 56 (1 ∷ []) ∷ Synced 1 ∷ [] }
    ensures nothing { saves (knowing 0 38 1000 (state 1 (Some 1) [])) (state 1 (Some 1) []) ≡ [] }
    ensures still { then_knows (knowing 0 38 1000 (state 1 (Some 1) [])) (state 1 (Some 1) []) ≡ knowing 0 38 1000 (state 1 (Some 1) []) }
    ensures a_base { saves (knowing 255 0 0 first_kept) (state 1 (Some 1) []) ≡
        whole 0 (voted_slot ++ 0 ∷ []) ++ (Wrote 2 0 (0 ∷ []) ∷ Synced 2 ∷ []) }
    ensures after_a_base { then_knows (knowing 255 0 0 first_kept) (state 1 (Some 1) []) ≡ knowing 0 38 1000 (state 1 (Some 1) []) }
{}

/// The acts of openings.
#[tactic(auto, unfolding(wire_fields::specs::Bytes::number_bytes, wire_fields::specs::Bytes::number_in, wire_fields::specs::Bytes::has_bytes, wire_fields::specs::Bytes::read_number, node_body::specs::Journals::from_gate))]
pub fn worked_openings()
    ensures fresh { opens [] [] [] ≡ three_syncs ++ (whole 0 (first_slot ++ 0 ∷ []) ++ (whole 1 (first_slot ++ 0 ∷ [])
        ++ (Wrote 2 0 (0 ∷ []) ∷ Synced 2 ∷ []))) }
    ensures held { opens (first_slot ++ 0 ∷ []) [] (0 ∷ []) ≡ three_syncs }
    ensures of_version_one { opens (old_first ++ 2 ∷ 255 ∷ 255 ∷ []) old_first (0 ∷ []) ≡
        three_syncs ++ (whole 1 (first_slot ++ 0 ∷ []) ++ (Wrote 2 0 (1 ∷ []) ∷ Synced 2 ∷ [])) }
    ensures a_journal_of_version_one { opens [] (old_first ++ 1 ∷ (vote_record ++ 0 ∷ [])) (255 ∷ []) ≡
        three_syncs ++ (whole 0 (voted_slot ++ 0 ∷ []) ++ (Wrote 2 0 (0 ∷ []) ∷ Synced 2 ∷ [])) }
    ensures no_slot { opens old_voted [] (1 ∷ []) ≡ three_syncs }
    ensures two_selectors { opens old_voted [] (0 ∷ 0 ∷ []) ≡ three_syncs }
{}
