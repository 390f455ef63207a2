ghost use Rattle.std.specs.Prelude.{◌≡◌, ℕ, [], ◌∷◌, ◌++◌, true, false, Some, None, length, replicate, List};
ghost use Rattle.vst_base.specs.Examples.{counter};
ghost use Rattle.net_semantics.specs.Runs.{first_refused, run, trace};
ghost use Rattle.raft_types.specs.declared.client.RaftOut.TheVariants as told;
ghost use Rattle.raft_xform.specs.Examples.{a_vote_outlives, append, appended, applied, ask, asked, candidate, committed_by_a_noop, entry, first, follower, leader, noop, old_entries, peer, to_each, unseated, vote, with_five_added, with_six_added};
ghost use Rattle.raft_xform.specs.Electing.{and_sending};
ghost use Rattle.raft_xform.specs.Nodes.{sending, stays};
ghost use Rattle.raft_xform.specs.Raft.{raft, raft_recovery};
ghost use Rattle.raft_xform.specs.Replicating.{follower as following, telling};
ghost use Rattle.vst_base.specs.declared.entry.Entry.{Entry};
ghost use Rattle.raft_types.specs.declared.limits.TheConstants.{MAX_INDEX};

use crate::Role;
use vst_base::{Item, Net};

/// Elections: of three nodes, of five and of nine, in a term that is over, and at the greatest term.
pub fn worked_elections()
    ensures asks_the_others { (raft 3 counter).timeout 1 (follower 1 None [])
        ≡ sending (candidate 2 1 2 []) (to_each (0 ∷ 2 ∷ []) (ask 2 0 0)) }
    ensures asks_with_its_last_entry { (raft 3 counter).timeout 1 (follower 1 None (entry 1 0 1 5 ∷ []))
        ≡ sending (candidate 2 1 2 (entry 1 0 1 5 ∷ [])) (to_each (0 ∷ 2 ∷ []) (ask 2 1 1)) }
    ensures asks_again_in_the_next_term { (raft 3 counter).timeout 0 (candidate 1 0 3 [])
        ≡ sending (candidate 2 0 1 []) (to_each (1 ∷ 2 ∷ []) (ask 2 0 0)) }
    ensures votes { (raft 3 counter).message 1 first 0 (ask 1 0 0) ≡ sending (follower 1 (Some 0) []) ((0, vote 1 true) ∷ []) }
    ensures votes_once { (raft 3 counter).message 1 (follower 1 (Some 0) []) 2 (ask 1 0 0)
        ≡ sending (follower 1 (Some 0) []) ((2, vote 1 false) ∷ []) }
    ensures not_for_a_log_that_lacks_an_entry { (raft 3 counter).message 1 (follower 1 None (entry 1 0 1 5 ∷ [])) 2 (ask 2 0 0)
        ≡ sending (follower 2 None (entry 1 0 1 5 ∷ [])) ((2, vote 2 false) ∷ []) }
    ensures two_of_five { (raft 5 counter).message 0 (candidate 1 0 1 []) 1 (vote 1 true) ≡ stays (candidate 1 0 3 []) }
    ensures four_of_nine { (raft 9 counter).message 0 (candidate 1 0 7 []) 3 (vote 1 true) ≡ stays (candidate 1 0 15 []) }
    ensures refused { (raft 3 counter).message 0 (candidate 1 0 1 []) 1 (vote 1 false) ≡ stays (candidate 1 0 1 []) }
    ensures a_vote_of_an_earlier_term { (raft 3 counter).message 0 (candidate 2 0 1 []) 1 (vote 1 true) ≡ stays (candidate 2 0 1 []) }
    ensures a_follower_counts_none { (raft 3 counter).message 0 (follower 1 (Some 0) []) 1 (vote 1 true) ≡ stays (follower 1 (Some 0) []) }
    ensures greatest_term { (raft 3 counter).timeout 1 (follower 9223372036854775807 None [])
        ≡ stays (follower 9223372036854775807 None []) }
    ensures a_candidate_at_the_greatest_term { (raft 3 counter).timeout 0 (candidate 9223372036854775807 0 1 [])
        ≡ stays (candidate 9223372036854775807 0 1 []) }
{}

/// A leader's first entry: alone, of three nodes and of nine, with a log, and where its log is full.
pub fn worked_leaders()
    ensures alone { (raft 1 counter).timeout 0 first ≡ stays (applied 1 (leader 1 1 (noop 1 ∷ []) 1 (peer 1 0 ∷ []))) }
    ensures of_three { (raft 3 counter).message 0 (candidate 1 0 1 []) 1 (vote 1 true)
        ≡ sending (leader 1 3 (noop 1 ∷ []) 0 (replicate 3 (peer 1 0))) (to_each (1 ∷ 2 ∷ []) (append 1 0 0 0 (noop 1 ∷ []))) }
    ensures of_nine { (raft 9 counter).message 0 (candidate 1 0 15 []) 8 (vote 1 true)
        ≡ sending (leader 1 271 (noop 1 ∷ []) 0 (replicate 9 (peer 1 0)))
        (to_each (1 ∷ 2 ∷ 3 ∷ 4 ∷ 5 ∷ 6 ∷ 7 ∷ 8 ∷ []) (append 1 0 0 0 (noop 1 ∷ []))) }
    ensures with_a_log { (raft 3 counter).message 0 (candidate 2 0 1 (entry 1 0 1 5 ∷ [])) 1 (vote 2 true)
        ≡ sending (leader 2 3 (entry 1 0 1 5 ∷ noop 2 ∷ []) 0 (replicate 3 (peer 2 0))) (to_each (1 ∷ 2 ∷ []) (append 2 1 1 0 (noop 2 ∷ []))) }
    ensures alone_with_a_log { (raft 1 counter).timeout 0 (follower 1 (Some 0) (entry 1 0 1 5 ∷ []))
        ≡ telling (with_five_added 2 (leader 2 1 (entry 1 0 1 5 ∷ noop 2 ∷ []) 2 (peer 2 0 ∷ []))) (told.Reply 7 1 0) }
    ensures one_place_left { (log : List (Entry ℕ)) → length log ≡ 999999
        → ((raft 3 counter).message 0 (candidate 1 0 1 log) 1 (vote 1 true)).state.log ≡ log ++ noop 1 ∷ [] }
    ensures full { (log : List (Entry ℕ)) → length log ≡ MAX_INDEX
        → ((raft 3 counter).message 0 (candidate 1 0 1 log) 1 (vote 1 true)).state.log ≡ log }
    ensures a_full_one_leads { (log : List (Entry ℕ)) → length log ≡ MAX_INDEX
        → ((raft 3 counter).message 0 (candidate 1 0 1 log) 1 (vote 1 true)).state.role ≡ Role.Leader }

    ensures its_noop_is_committed { (raft 3 counter).message 0 (leader 1 3 (noop 1 ∷ []) 0 (replicate 3 (peer 1 0))) 1 (appended 1 true 1)
        ≡ stays (applied 1 (leader 1 3 (noop 1 ∷ []) 1 (peer 1 0 ∷ peer 2 1 ∷ peer 1 0 ∷ []))) }
    ensures with_all_before_it { (raft 3 counter).message 0 (leader 2 3 (entry 1 0 1 5 ∷ noop 2 ∷ []) 0 (replicate 3 (peer 2 0))) 1 (appended 2 true 2)
        ≡ telling (with_five_added 2 (leader 2 3 (entry 1 0 1 5 ∷ noop 2 ∷ []) 2 (peer 2 0 ∷ peer 3 2 ∷ peer 2 0 ∷ []))) (told.Reply 7 1 0) }
    ensures and_not_they_alone { (raft 3 counter).message 0 (leader 2 3 (entry 1 0 1 5 ∷ noop 2 ∷ []) 0 (replicate 3 (peer 1 0))) 1 (appended 2 true 1)
        ≡ sending (leader 2 3 (entry 1 0 1 5 ∷ noop 2 ∷ []) 0 (peer 1 0 ∷ peer 2 1 ∷ peer 1 0 ∷ [])) ((1, append 2 1 1 0 (noop 2 ∷ [])) ∷ []) }
    ensures nobody_is_told_of_it { (raft 3 counter).message 1 (follower 1 (Some 0) []) 0 (append 1 0 0 1 (noop 1 ∷ []))
        ≡ sending (applied 1 (record (follower 1 (Some 0) (noop 1 ∷ [])) { commit = 1 })) ((0, appended 1 true 1) ∷ []) }
    ensures and_no_session_changes { (raft 3 counter).message 1 (with_five_added 1 (record (follower 1 None (entry 1 0 1 5 ∷ [])) { commit = 1 })) 0 (append 2 1 1 2 (noop 2 ∷ []))
        ≡ sending (with_five_added 2 (record (follower 2 None (entry 1 0 1 5 ∷ noop 2 ∷ [])) { commit = 2 })) ((0, appended 2 true 2) ∷ []) }

    ensures leads_no_more_by_a_vote { (raft 3 counter).message 0 (leader 1 3 [] 0 []) 1 (vote 2 false) ≡ stays (unseated 2 (leader 1 3 [] 0 [])) }
    ensures leads_no_more_by_an_append { (raft 3 counter).message 0 (leader 1 3 (noop 1 ∷ []) 0 []) 1 (append 2 0 0 0 (noop 2 ∷ []))
        ≡ sending (unseated 2 (leader 1 3 (noop 2 ∷ []) 0 [])) ((1, appended 2 true 1) ∷ []) }
    ensures leads_no_more_by_an_answer { (raft 3 counter).message 0 (leader 1 3 [] 0 []) 1 (appended 2 false 0) ≡ stays (unseated 2 (leader 1 3 [] 0 [])) }
{}

/// A request of a client on its way through three nodes, and through one.
pub fn worked_replication()
    ensures sent { (raft 3 counter).input 0 (leader 1 3 [] 0 (replicate 3 (peer 1 0))) (asked 1 5)
        ≡ sending (leader 1 3 (entry 1 0 1 5 ∷ []) 0 (replicate 3 (peer 1 0))) (to_each (1 ∷ 2 ∷ []) (append 1 0 0 0 (entry 1 0 1 5 ∷ []))) }
    ensures taken { (raft 3 counter).message 1 (follower 1 (Some 0) []) 0 (append 1 0 0 0 (entry 1 0 1 5 ∷ []))
        ≡ sending (follower 1 (Some 0) (entry 1 0 1 5 ∷ [])) ((0, appended 1 true 1) ∷ []) }
    ensures committed { (raft 3 counter).message 0 (leader 1 3 (entry 1 0 1 5 ∷ []) 0 (replicate 3 (peer 1 0))) 1 (appended 1 true 1)
        ≡ telling (with_five_added 1 (leader 1 3 (entry 1 0 1 5 ∷ []) 1 (peer 1 0 ∷ peer 2 1 ∷ peer 1 0 ∷ []))) (told.Reply 7 1 0) }
    ensures told_with_the_commit { (raft 3 counter).timeout 0 (leader 1 3 (entry 1 0 1 5 ∷ []) 1 (peer 1 0 ∷ peer 2 1 ∷ peer 1 0 ∷ []))
        ≡ sending (leader 1 3 (entry 1 0 1 5 ∷ []) 1 (peer 1 0 ∷ peer 2 1 ∷ peer 1 0 ∷ []))
        ((1, append 1 1 1 1 []) ∷ (2, append 1 0 0 1 (entry 1 0 1 5 ∷ [])) ∷ []) }
    ensures applied_without_a_reply { (raft 3 counter).message 1 (follower 1 (Some 0) (entry 1 0 1 5 ∷ [])) 0 (append 1 1 1 1 [])
        ≡ sending (with_five_added 1 (record (follower 1 (Some 0) (entry 1 0 1 5 ∷ [])) { commit = 1 })) ((0, appended 1 true 1) ∷ []) }
    ensures at_once_where_alone { (raft 1 counter).input 0 (leader 1 1 [] 0 (peer 1 0 ∷ [])) (asked 1 5)
        ≡ telling (with_five_added 1 (leader 1 1 (entry 1 0 1 5 ∷ []) 1 (peer 1 0 ∷ []))) (told.Reply 7 1 0) }

    ensures asked_again { (raft 1 counter).input 0 (with_five_added 1 (leader 1 1 (entry 1 0 1 5 ∷ []) 1 (peer 1 0 ∷ []))) (asked 1 9)
        ≡ telling (with_five_added 2 (leader 1 1 (entry 1 0 1 5 ∷ entry 1 0 1 9 ∷ []) 2 (peer 1 0 ∷ []))) (told.Reply 7 1 0) }
    ensures two_at_once { (raft 3 counter).message 0 (leader 1 3 (entry 1 0 1 5 ∷ entry 1 0 2 6 ∷ []) 0 (replicate 3 (peer 1 0))) 1 (appended 1 true 2)
        ≡ record {
          state = with_six_added 2 (leader 1 3 (entry 1 0 1 5 ∷ entry 1 0 2 6 ∷ []) 2 (peer 1 0 ∷ peer 3 2 ∷ peer 1 0 ∷ []));
          outputs = told.Reply 7 1 0 ∷ told.Reply 7 2 5 ∷ [];
          sends = [];
        } }
    ensures a_candidate_follows { (raft 3 counter).message 0 (candidate 1 0 1 []) 1 (append 1 0 0 0 [])
        ≡ sending (following (candidate 1 0 1 [])) ((1, appended 1 true 0) ∷ []) }
    ensures committed_as_far_as_taken { (raft 3 counter).message 1 (follower 1 (Some 0) []) 0 (append 1 0 0 5 (entry 1 0 1 5 ∷ []))
        ≡ sending (with_five_added 1 (record (follower 1 (Some 0) (entry 1 0 1 5 ∷ [])) { commit = 1 })) ((0, appended 1 true 1) ∷ []) }
    ensures a_commit_never_falls { (raft 3 counter).message 1 (with_five_added 1 (record (follower 1 (Some 0) (entry 1 0 1 5 ∷ [])) { commit = 1 })) 0 (append 1 1 1 0 [])
        ≡ sending (with_five_added 1 (record (follower 1 (Some 0) (entry 1 0 1 5 ∷ [])) { commit = 1 })) ((0, appended 1 true 1) ∷ []) }
    ensures retried_from_one_earlier { (raft 3 counter).message 0 (leader 1 3 (entry 1 0 1 5 ∷ []) 0 (replicate 3 (peer 2 0))) 1 (appended 1 false 1)
        ≡ sending (leader 1 3 (entry 1 0 1 5 ∷ []) 0 (peer 2 0 ∷ peer 1 0 ∷ peer 2 0 ∷ [])) ((1, append 1 0 0 0 (entry 1 0 1 5 ∷ [])) ∷ []) }
    ensures rest_is_sent { (raft 5 counter).message 0 (leader 1 7 (entry 1 0 1 5 ∷ entry 1 0 2 6 ∷ []) 0 (replicate 5 (peer 1 0))) 1 (appended 1 true 1)
        ≡ sending (leader 1 7 (entry 1 0 1 5 ∷ entry 1 0 2 6 ∷ []) 0 (peer 1 0 ∷ peer 2 1 ∷ replicate 3 (peer 1 0)))
        ((1, append 1 1 1 0 (entry 1 0 2 6 ∷ [])) ∷ []) }
    ensures rest_is_sent_with_the_commit { (raft 3 counter).message 0 (leader 1 3 (entry 1 0 1 5 ∷ entry 1 0 2 6 ∷ []) 0 (replicate 3 (peer 1 0))) 1 (appended 1 true 1)
        ≡ and_sending (telling (with_five_added 1 (leader 1 3 (entry 1 0 1 5 ∷ entry 1 0 2 6 ∷ []) 1 (peer 1 0 ∷ peer 2 1 ∷ peer 1 0 ∷ []))) (told.Reply 7 1 0))
        ((1, append 1 1 1 1 (entry 1 0 2 6 ∷ [])) ∷ []) }
{}

/// What a node does not take.
pub fn worked_refusals()
    ensures not_the_leader { (raft 3 counter).input 1 (follower 1 (Some 0) []) (asked 1 5) ≡ telling (follower 1 (Some 0) []) (told.NotLeader 7 1) }
    ensures not_the_leader_yet { (raft 3 counter).input 0 (candidate 1 0 1 []) (asked 1 5) ≡ telling (candidate 1 0 1 []) (told.NotLeader 7 1) }
    ensures full { (log : List (Entry ℕ)) → length log ≡ MAX_INDEX
        → (raft 3 counter).input 0 (leader 1 3 log 0 []) (asked 1 5) ≡ telling (leader 1 3 log 0 []) (told.Full 7 1) }
    ensures one_place_left { (log : List (Entry ℕ)) → length log ≡ 999999
        → ((raft 3 counter).input 0 (leader 1 3 log 0 []) (asked 1 5)).state.log ≡ log ++ entry 1 0 1 5 ∷ [] }

    ensures earlier_term { (raft 3 counter).message 1 (follower 2 None []) 0 (append 1 0 0 0 (entry 1 0 1 5 ∷ []))
        ≡ sending (follower 2 None []) ((0, appended 2 false 0) ∷ []) }
    ensures no_entry_there { (raft 3 counter).message 1 (follower 1 (Some 0) []) 0 (append 1 1 1 1 [])
        ≡ sending (follower 1 (Some 0) []) ((0, appended 1 false 1) ∷ []) }
    ensures a_committed_one_stays { (raft 3 counter).message 1 (record (follower 2 None (entry 1 0 1 5 ∷ [])) { commit = 1; applied = 1 }) 0 (append 2 0 0 0 (entry 2 0 1 6 ∷ []))
        ≡ sending (record (follower 2 None (entry 1 0 1 5 ∷ [])) { commit = 1; applied = 1 }) ((0, appended 2 false 0) ∷ []) }
    ensures a_leader_takes_none { (raft 3 counter).message 0 (leader 1 3 [] 0 []) 1 (append 1 0 0 0 (entry 1 1 1 5 ∷ [])) ≡ stays (leader 1 3 [] 0 []) }
    ensures answer_to_a_candidate { (raft 3 counter).message 0 (candidate 1 0 1 []) 1 (appended 1 true 1) ≡ stays (candidate 1 0 1 []) }
    ensures answer_to_an_earlier_term { (raft 3 counter).message 0 (leader 3 3 (entry 1 0 1 5 ∷ []) 0 (replicate 3 (peer 1 0))) 1 (appended 1 true 1)
        ≡ stays (leader 3 3 (entry 1 0 1 5 ∷ []) 0 (replicate 3 (peer 1 0))) }
{}

/// What three nodes tell their clients, on runs in which one of them stops and starts again.
pub fn worked_runs()
    ensures a_vote_outlives_a_reboot { trace (raft 3 counter) (raft_recovery counter) a_vote_outlives
        ≡ Item.Input 2 (asked 1 5) ∷ Item.Output 2 (told.NotLeader 7 1) ∷ [] }
    ensures it_is_allowed { first_refused Net.Fail (raft 3 counter) (raft_recovery counter) a_vote_outlives ≡ None }
    ensures an_old_entry_waits { trace (raft 3 counter) (raft_recovery counter) old_entries ≡ Item.Input 0 (asked 1 5) ∷ [] }
    ensures an_old_entry_is_not_committed { ((run (raft 3 counter) (raft_recovery counter) old_entries).state 0).commit ≡ 0 }
    ensures a_noop_commits_it { ((run (raft 3 counter) (raft_recovery counter) committed_by_a_noop).state 0).commit ≡ 3 }
    ensures that_is_allowed_too { first_refused Net.Fail (raft 3 counter) (raft_recovery counter) committed_by_a_noop ≡ None }
{}
