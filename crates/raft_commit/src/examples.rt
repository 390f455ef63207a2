ghost use Rattle.std.specs.Prelude.{◌≡◌, [], ◌∷◌, ◌++◌, true, false, drop, take};
ghost use Rattle.vst_base.specs.Elections.{advance};
ghost use Rattle.vst_base.specs.LogExamples.{leader, log, noop};
ghost use Rattle.raft_commit.specs.Peers.{batch, matched_of, moved, new_peer, peer_after};
ghost use Rattle.raft_commit.specs.PeerExamples.{peer, peers};
ghost use Rattle.raft_commit.specs.declared.peer.Moved.TheVariants.{Raised, Back, Nothing};

/// What a leader with ten entries makes of answers: of a node that it knows nothing of, and of one that it
/// sent the entries from index 5 on and that has those up to 2.
pub fn worked_answers()
    ensures nothing_known { new_peer 10 ≡ peer 11 0 }
    ensures first_no { (moved (new_peer 10) false 10 10 ≡ Back) × (peer_after (new_peer 10) 10 Back ≡ peer 10 0) }
    ensures first_yes { (moved (new_peer 10) true 10 10 ≡ Raised) × (peer_after (new_peer 10) 10 Raised ≡ peer 11 10) }
    ensures first_of_an_empty_log { (moved (new_peer 0) false 0 0 ≡ Nothing) × (moved (new_peer 0) true 0 0 ≡ Nothing) }

    ensures no_at_its_next { (moved (peer 5 2) false 4 10 ≡ Back) × (peer_after (peer 5 2) 4 Back ≡ peer 4 2) }
    ensures old_no_of_a_later_index { moved (peer 5 2) false 5 10 ≡ Nothing }
    ensures old_no_of_an_earlier_index { moved (peer 5 2) false 3 10 ≡ Nothing }
    ensures no_to_what_it_has { moved (peer 3 2) false 2 10 ≡ Nothing }

    ensures yes_past_its_next { (moved (peer 5 2) true 7 10 ≡ Raised) × (peer_after (peer 5 2) 7 Raised ≡ peer 8 7) }
    ensures yes_before_its_next { (moved (peer 5 2) true 3 10 ≡ Raised) × (peer_after (peer 5 2) 3 Raised ≡ peer 4 3) }
    ensures yes_to_the_end { moved (peer 5 2) true 10 10 ≡ Raised }
    ensures yes_past_the_end { moved (peer 5 2) true 11 10 ≡ Nothing }
    ensures yes_to_what_it_has { moved (peer 5 2) true 2 10 ≡ Nothing }
    ensures old_yes { moved (peer 5 2) true 1 10 ≡ Nothing }
    ensures nothing_changes { peer_after (peer 5 2) 1 Nothing ≡ peer 5 2 }
{}

/// What is sent of the new leader's log of Figure 7 of the Raft paper, of ten entries.
pub fn worked_batches()
    ensures first_eight { batch leader 1 ≡ take 8 leader }
    ensures eight_in_the_middle { batch leader 2 ≡ take 8 (drop 1 leader) }
    ensures last_eight { batch leader 3 ≡ drop 2 leader }
    ensures last_three { batch leader 8 ≡ log (6 ∷ 6 ∷ 6 ∷ []) }
    ensures last { batch leader 10 ≡ log (6 ∷ []) }
    ensures past_the_end { batch leader 11 ≡ [] }
    ensures of_none { batch (log []) 1 ≡ [] }
{}

/// How far leaders commit by what they know of the nodes: first as in Figure 8 of the Raft paper, (c) and
/// (e), and at the end in logs that forged messages made.
pub fn worked_commits()
    ensures old_term_waits { advance 5 0 (matched_of (peers (0 ∷ 2 ∷ 2 ∷ 0 ∷ 0 ∷ []))) (log (1 ∷ 2 ∷ 4 ∷ [])) 4 1 3 ≡ 1 }
    ensures old_term_goes_with_its_own { advance 5 0 (matched_of (peers (0 ∷ 3 ∷ 3 ∷ 0 ∷ 0 ∷ []))) (log (1 ∷ 2 ∷ 4 ∷ [])) 4 1 3 ≡ 3 }
    ensures two_of_five { advance 5 0 (matched_of (peers (0 ∷ 3 ∷ 2 ∷ 1 ∷ 0 ∷ []))) (log (1 ∷ 2 ∷ 4 ∷ [])) 4 1 3 ≡ 1 }

    ensures old_terms_wait { advance 3 0 (matched_of (peers (0 ∷ 2 ∷ 0 ∷ []))) (log (1 ∷ 1 ∷ 2 ∷ [])) 2 0 3 ≡ 0 }
    ensures old_terms_go_with_its_own { advance 3 0 (matched_of (peers (0 ∷ 3 ∷ 0 ∷ []))) (log (1 ∷ 1 ∷ 2 ∷ [])) 2 0 3 ≡ 3 }
    ensures a_noop_commits_them { advance 3 0 (matched_of (peers (0 ∷ 3 ∷ 0 ∷ []))) (log (1 ∷ 1 ∷ []) ++ noop 2 ∷ []) 2 0 3 ≡ 3 }
    ensures four_of_nine { advance 9 0 (matched_of (peers (0 ∷ 1 ∷ 1 ∷ 1 ∷ 0 ∷ 0 ∷ 0 ∷ 0 ∷ 0 ∷ []))) (log (1 ∷ [])) 1 0 1 ≡ 0 }
    ensures five_of_nine { advance 9 0 (matched_of (peers (0 ∷ 1 ∷ 1 ∷ 1 ∷ 0 ∷ 0 ∷ 0 ∷ 0 ∷ 1 ∷ []))) (log (1 ∷ [])) 1 0 1 ≡ 1 }

    ensures two_of_three { advance 3 1 (matched_of (peers (3 ∷ 0 ∷ 1 ∷ []))) (log (1 ∷ 1 ∷ 1 ∷ 1 ∷ [])) 1 0 4 ≡ 3 }
    ensures third_of_five { advance 5 4 (matched_of (peers (1 ∷ 4 ∷ 2 ∷ 3 ∷ 0 ∷ []))) (log (1 ∷ 1 ∷ 1 ∷ 1 ∷ [])) 1 0 4 ≡ 3 }
    ensures half { advance 4 3 (matched_of (peers (4 ∷ 1 ∷ 0 ∷ 0 ∷ []))) (log (1 ∷ 1 ∷ 1 ∷ 1 ∷ [])) 1 0 4 ≡ 1 }
    ensures alone { advance 1 0 (matched_of (peers (0 ∷ []))) (log (1 ∷ 1 ∷ 2 ∷ [])) 2 0 3 ≡ 3 }
    ensures its_own_place_unread { advance 3 1 (matched_of (peers (0 ∷ 4 ∷ 1 ∷ []))) (log (1 ∷ 1 ∷ 1 ∷ 1 ∷ [])) 1 0 4 ≡ 1 }
    ensures none_of_its_term { advance 3 0 (matched_of (peers (0 ∷ 3 ∷ 3 ∷ []))) (log (1 ∷ 1 ∷ 2 ∷ [])) 3 2 3 ≡ 2 }
    ensures never_back { advance 3 0 (matched_of (peers (0 ∷ 0 ∷ 0 ∷ []))) (log (1 ∷ 1 ∷ 1 ∷ [])) 1 2 3 ≡ 2 }

    ensures terms_that_fall { advance 3 0 (matched_of (peers (0 ∷ 4 ∷ 0 ∷ []))) (log (1 ∷ 3 ∷ 5 ∷ 2 ∷ [])) 3 0 4 ≡ 2 }
    ensures past_the_end { advance 3 0 (matched_of (peers (0 ∷ 9 ∷ 0 ∷ []))) (log (1 ∷ 1 ∷ [])) 1 0 2 ≡ 2 }
{}
