ghost use Rattle.std.specs.Prelude.{◌≡◌, ℕ, [], ◌∷◌, ◌++◌, true, false, Some, None, drop, slice_index};
ghost use Rattle.vst_base.specs.Logs.{accepted, has_conflict, last_term, matches, merged, term_at};
ghost use Rattle.vst_base.specs.Elections.{MajoritiesMeet, count, is_free_for, is_majority, is_up_to_date, nobody, with_node, advance, learned_commit, may_commit};
ghost use Rattle.vst_base.specs.Entries.{HasOrigin};
ghost use Rattle.vst_base.specs.LogExamples.{entry, far_behind, leader, log, of_a_later_term, one_behind, one_more, parted_early, parted_late};

use crate::What;

/// The nodes that an entry may name.
pub fn worked_entries()
    ensures a_noop_names_none { HasOrigin {C = ℕ} What.Noop }
    ensures the_last_node { HasOrigin {C = ℕ} (What.Request 7 1 8 5) }
    ensures no_tenth_node { ¬ HasOrigin {C = ℕ} (What.Request 7 1 9 5) }
{}

/// Terms at indexes, what a leader's entries make of a log, and conflicts with what is committed.
pub fn worked_logs()
    ensures term_at_an_index { term_at (log (1 ∷ 1 ∷ 3 ∷ [])) 3 ≡ 3 }
    ensures no_term_at_zero { term_at (log (1 ∷ [])) 0 ≡ 0 }
    ensures no_term_past_the_end { term_at (log (1 ∷ 1 ∷ 3 ∷ [])) 4 ≡ 0 }
    ensures last_of_a_log { last_term leader ≡ 6 }
    ensures last_of_nothing { last_term (log []) ≡ 0 }

    ensures matches_at_its_end { matches far_behind 4 4 ≡ true }
    ensures matches_at_zero { matches (log []) 0 0 ≡ true }
    ensures another_term_there { matches parted_late 6 5 ≡ false }
    ensures no_entry_there { matches far_behind 5 0 ≡ false }

    ensures missing_are_added { accepted one_behind 9 (drop 9 leader) ≡ leader }
    ensures all_missing_are_added { accepted far_behind 4 (drop 4 leader) ≡ leader }
    ensures conflicts_are_cut { accepted parted_late 5 (drop 5 leader) ≡ leader }
    ensures old_terms_are_cut { accepted parted_early 3 (drop 3 leader) ≡ leader }
    ensures nothing_cut_without_a_conflict { accepted one_more 7 (drop 7 leader) ≡ one_more }
    ensures nothing_cut_by_none { accepted of_a_later_term 10 [] ≡ of_a_later_term }
    ensures cut_by_a_later_term { accepted of_a_later_term 10 (log (8 ∷ [])) ≡ leader ++ log (8 ∷ []) }
    ensures first_conflict_cuts_all { merged (log (2 ∷ 2 ∷ 2 ∷ [])) (log (2 ∷ 3 ∷ [])) ≡ log (2 ∷ 3 ∷ []) }
    ensures terms_alone_are_compared { merged (entry 2 5 ∷ []) (entry 2 6 ∷ entry 2 7 ∷ []) ≡ entry 2 5 ∷ entry 2 7 ∷ [] }

    ensures conflict_below_commit { has_conflict parted_late 7 5 (drop 5 leader) ≡ true }
    ensures conflict_at_commit { has_conflict parted_late 6 5 (drop 5 leader) ≡ true }
    ensures conflict_past_commit { has_conflict parted_late 5 3 (drop 3 leader) ≡ false }
    ensures no_conflict { has_conflict one_more 11 0 leader ≡ false }
{}

/// Which voters find the new leader's log up to date, whom a voter is free for, and majorities.
pub fn worked_elections()
    ensures one_behind_votes { is_up_to_date one_behind 10 6 ≡ true }
    ensures far_behind_votes { is_up_to_date far_behind 10 6 ≡ true }
    ensures longer_in_its_term_does_not { is_up_to_date one_more 10 6 ≡ false }
    ensures later_term_does_not { is_up_to_date of_a_later_term 10 6 ≡ false }
    ensures parted_late_votes { is_up_to_date parted_late 10 6 ≡ true }
    ensures longer_of_an_earlier_term_votes { is_up_to_date parted_early 10 6 ≡ true }
    ensures equal_votes { is_up_to_date leader 10 6 ≡ true }
    ensures both_empty { is_up_to_date (log []) 0 0 ≡ true }

    ensures not_voted { is_free_for None 2 ≡ true }
    ensures voted_for_it { is_free_for (Some 2) 2 ≡ true }
    ensures voted_for_another { is_free_for (Some 1) 2 ≡ false }

    ensures counted_once { count (with_node 2 (with_node 2 (with_node 0 nobody))) 3 ≡ 2 }
    ensures no_node_past_the_last { count (with_node 3 (with_node 1 nobody)) 3 ≡ 1 }
    ensures one_of_one { is_majority 1 (with_node 0 nobody) ≡ true }
    ensures one_of_two { is_majority 2 (with_node 0 nobody) ≡ false }
    ensures two_of_three { is_majority 3 (with_node 2 (with_node 0 nobody)) ≡ true }
    ensures half { is_majority 4 (with_node 3 (with_node 0 nobody)) ≡ false }
    ensures three_of_five { is_majority 5 (with_node 1 (with_node 4 (with_node 0 nobody))) ≡ true }
    ensures four_of_nine { is_majority 9 (with_node 8 (with_node 5 (with_node 2 (with_node 0 nobody)))) ≡ false }
    ensures five_of_nine { is_majority 9 (with_node 8 (with_node 7 (with_node 5 (with_node 2 (with_node 0 nobody))))) ≡ true }
    ensures none_of_none { is_majority 0 nobody ≡ false }
{}

/// Two majorities of one cluster have a node in common.
pub fn majorities_meet()
    ensures { MajoritiesMeet }
{}

/// What a leader may commit, as in Figure 8 of the Raft paper, and what its followers learn of it.
pub fn worked_commits()
    ensures old_term_on_a_majority { may_commit 5 0 (slice_index (0 ∷ 2 ∷ 2 ∷ [])) (log (1 ∷ 2 ∷ 4 ∷ [])) 4 1 2 ≡ false }
    ensures own_term_on_a_majority { may_commit 5 0 (slice_index (0 ∷ 3 ∷ 3 ∷ [])) (log (1 ∷ 2 ∷ 4 ∷ [])) 4 1 3 ≡ true }
    ensures own_term_on_two_of_five { may_commit 5 0 (slice_index (0 ∷ 3 ∷ 2 ∷ [])) (log (1 ∷ 2 ∷ 4 ∷ [])) 4 1 3 ≡ false }
    ensures committed_already { may_commit 3 0 (slice_index (0 ∷ 1 ∷ 1 ∷ [])) (log (1 ∷ [])) 1 1 1 ≡ false }

    ensures old_term_stays { advance 5 0 (slice_index (0 ∷ 2 ∷ 2 ∷ [])) (log (1 ∷ 2 ∷ 4 ∷ [])) 4 1 3 ≡ 1 }
    ensures old_term_goes_with_its_own { advance 5 0 (slice_index (0 ∷ 3 ∷ 3 ∷ [])) (log (1 ∷ 2 ∷ 4 ∷ [])) 4 1 3 ≡ 3 }
    ensures greatest_of_several { advance 3 1 (slice_index (3 ∷ 0 ∷ 2 ∷ [])) (log (1 ∷ 1 ∷ 1 ∷ 1 ∷ [])) 1 0 4 ≡ 3 }
    ensures alone { advance 1 0 (slice_index (0 ∷ [])) (log (1 ∷ 1 ∷ [])) 1 0 2 ≡ 2 }

    ensures as_far_as_taken { learned_commit 1 7 4 ≡ 4 }
    ensures as_far_as_committed { learned_commit 1 3 4 ≡ 3 }
    ensures never_back { learned_commit 5 3 4 ≡ 5 }
{}
