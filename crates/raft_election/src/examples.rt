ghost use Rattle.std.specs.Prelude.{◌≡◌, [], ◌∷◌, true, false, Some, None};
ghost use Rattle.vst_base.specs.Elections.{is_majority};
ghost use Rattle.vst_base.specs.declared.entry.TheConstants.{MAX_TERM};
ghost use Rattle.raft_election.specs.Ballots.{Ask, Grant, Learn, OneVoteATerm, Start, after, counted, grants, kept, learned, may_start, started, voted_for, VotesAreSets, has_vote, no_votes, with_vote};

/// An election of three nodes, a second candidate in its term, the greatest term, and halves.
pub fn worked()
    ensures a_candidate { started 0 (kept 4 (Some 2)) ≡ record { term = 5; voted = Some 0; votes = 1 } }
    ensures its_own_votes_alone { started 2 (counted 1 (started 0 (kept 4 None))) ≡ record { term = 6; voted = Some 2; votes = 4 } }
    ensures not_by_itself { is_majority 3 (has_vote (started 0 (kept 4 None)).votes) ≡ false }
    ensures a_voter { (grants (learned 5 (kept 4 (Some 2))) 5 0 true ≡ true) × (voted_for 0 (learned 5 (kept 4 (Some 2))) ≡ kept 5 (Some 0)) }
    ensures a_leader { (counted 1 (started 0 (kept 4 None)) ≡ record { term = 5; voted = Some 0; votes = 3 }) × (is_majority 3 (has_vote 3) ≡ true) }
    ensures counted_once { (counted 1 (counted 1 (started 0 (kept 4 None)))).votes ≡ 3 }

    ensures asked_again { grants (kept 5 (Some 0)) 5 0 true ≡ true }
    ensures second_candidate { grants (kept 5 (Some 0)) 5 1 true ≡ false }
    ensures behind { grants (kept 5 None) 5 1 false ≡ false }
    ensures older_term { grants (kept 5 None) 4 1 true ≡ false }
    ensures later_term { grants (kept 5 None) 6 1 true ≡ false }
    ensures second_candidate_in_a_later_term { after (kept 5 (Some 0)) (Ask 6 1 true ∷ Learn 6 ∷ Ask 6 1 true ∷ Ask 6 0 true ∷ []) ≡ kept 6 (Some 1) }

    ensures first_term { started 1 (kept 0 None) ≡ record { term = 1; voted = Some 1; votes = 2 } }
    ensures last_start { may_start (kept 9223372036854775806 None) ≡ true }
    ensures greatest_term { may_start (kept 9223372036854775807 None) ≡ false }
    ensures stays_at_the_greatest_term { after (kept 9223372036854775807 (Some 1)) (Start 0 ∷ Learn 5 ∷ []) ≡ kept 9223372036854775807 (Some 1) }

    ensures nobody_voted { has_vote no_votes 0 ≡ false }
    ensures who_voted { (has_vote (with_vote 15 no_votes) 15 ≡ true) × (has_vote (with_vote 15 no_votes) 14 ≡ false) }
    ensures one_of_two { is_majority 2 (has_vote 1) ≡ false }
    ensures two_of_two { is_majority 2 (has_vote 3) ≡ true }
    ensures two_of_four { is_majority 4 (has_vote 9) ≡ false }
    ensures three_of_four { is_majority 4 (has_vote 11) ≡ true }
    ensures votes_past_the_last { is_majority 3 (has_vote 57) ≡ false }
{}

/// A set of votes, as a number, is the set of nodes that has them.
pub fn votes_are_sets()
    ensures { VotesAreSets }
{}

/// Whatever rules come, a term never falls, and a node votes for one candidate in a term.
pub fn one_vote_a_term()
    ensures { OneVoteATerm }
{}
