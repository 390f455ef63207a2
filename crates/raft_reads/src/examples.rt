ghost use Rattle.std.specs.Prelude.{◌≡◌, [], ◌∷◌, true, false, Some, None};
ghost use Rattle.vst_base.specs.Examples.{counter};
ghost use Rattle.vst_base.specs.declared.step.Step.TheVariants as step;
ghost use Rattle.raft_reads.specs.Clusters.{first};
ghost use Rattle.raft_reads.specs.Dropping.{DropsReads};
ghost use Rattle.raft_reads.specs.Erasing.{NoRead, erased_packet, erased_world};
ghost use Rattle.raft_reads.specs.Examples.{alone, cluster, counting, elected, idle, in_round, of_five, of_three, one_of_five_waits, one_waits, read, reading, sending, telling, to_each, two_wait, waits_in_term_three};
ghost use Rattle.raft_reads.specs.ReadRaft.{read_recovery};
ghost use Rattle.raft_types.specs.declared.client.RaftOut.TheVariants as told;
ghost use Rattle.raft_xform.specs.Examples.{append, appended, ask, asked, candidate, entry, follower, leader, noop, unseated, vote};

/// Reads at a leader, which is of three nodes if nothing else is said: what takes no entry, and what is answered when.
pub fn worked_reads()
    ensures a_read_waits { (counting 3).input 0 (idle 3 of_three) (asked 1 0)
        ≡ sending one_waits
        ((1, in_round 1 (append 1 1 1 1 [])) ∷ (2, in_round 1 (append 1 0 0 1 (noop 1 ∷ []))) ∷ []) }
    ensures another_waits_for_another_round { (counting 3).input 0 one_waits (asked 2 0)
        ≡ sending two_wait
        ((1, in_round 2 (append 1 1 1 1 [])) ∷ (2, in_round 2 (append 1 0 0 1 (noop 1 ∷ []))) ∷ []) }
    ensures answered_at_once_where_alone { (counting 1).input 0 (idle 1 alone) (asked 1 0)
        ≡ telling (reading alone 1 (0 ∷ []) [] (read 1 1 1 ∷ [])) (told.Reply 7 1 0 ∷ []) }
    ensures a_new_leader_adds_an_entry { (counting 3).input 0 (idle 3 elected) (asked 1 0)
        ≡ sending (idle 3 (leader 1 3 (noop 1 ∷ entry 1 0 1 0 ∷ []) 0 elected.peers))
        (to_each (1 ∷ 2 ∷ []) (in_round 0 (append 1 0 0 0 (noop 1 ∷ entry 1 0 1 0 ∷ [])))) }
    ensures a_write_adds_an_entry { ((counting 3).input 0 (idle 3 of_three) (asked 1 5)).state.raft.log ≡ noop 1 ∷ entry 1 0 1 5 ∷ [] }
    ensures and_begins_no_round { ((counting 3).input 0 (idle 3 of_three) (asked 1 5)).state.reads.round ≡ 0 }
    ensures not_the_leader { (counting 3).input 1 (idle 3 (follower 1 (Some 0) [])) (asked 1 0)
        ≡ telling (idle 3 (follower 1 (Some 0) [])) (told.NotLeader 7 1 ∷ []) }

    ensures a_quorum_acknowledges { (counting 3).message 0 one_waits 1 (in_round 1 (appended 1 true 1))
        ≡ telling (reading of_three 1 (0 ∷ 1 ∷ 0 ∷ []) [] (read 1 1 1 ∷ [])) (told.Reply 7 1 0 ∷ []) }
    ensures by_a_refusal_alike { (counting 3).message 0 one_waits 1 (in_round 1 (appended 1 false 0))
        ≡ telling (reading of_three 1 (0 ∷ 1 ∷ 0 ∷ []) [] (read 1 1 1 ∷ [])) (told.Reply 7 1 0 ∷ []) }
    ensures all_of_a_lesser_round { (counting 3).message 0 two_wait 1 (in_round 2 (appended 1 true 1))
        ≡ telling (reading of_three 2 (0 ∷ 2 ∷ 0 ∷ []) [] (read 1 1 1 ∷ read 2 2 1 ∷ [])) (told.Reply 7 1 0 ∷ told.Reply 7 2 0 ∷ []) }
    ensures none_of_a_greater_one { (counting 3).message 0 two_wait 1 (in_round 1 (appended 1 true 1))
        ≡ telling (reading of_three 2 (0 ∷ 1 ∷ 0 ∷ []) (read 2 2 1 ∷ []) (read 1 1 1 ∷ [])) (told.Reply 7 1 0 ∷ []) }
    ensures the_greatest_is_kept { (counting 3).message 0
        (reading of_three 2 (0 ∷ 2 ∷ 0 ∷ []) [] (read 2 2 1 ∷ [])) 1 (in_round 1 (appended 1 true 1))
        ≡ telling (reading of_three 2 (0 ∷ 2 ∷ 0 ∷ []) [] []) [] }
    ensures one_of_five_is_no_quorum { (counting 5).message 0 one_of_five_waits 1 (in_round 1 (appended 1 true 1))
        ≡ telling (reading of_five 1 (0 ∷ 1 ∷ 0 ∷ 0 ∷ 0 ∷ []) (read 1 1 1 ∷ []) []) [] }
    ensures two_of_five_are_with_the_leader { (counting 5).message 0
        (reading of_five 1 (0 ∷ 1 ∷ 0 ∷ 0 ∷ 0 ∷ []) (read 1 1 1 ∷ []) []) 2 (in_round 1 (appended 1 true 1))
        ≡ telling (reading of_five 1 (0 ∷ 1 ∷ 1 ∷ 0 ∷ 0 ∷ []) [] (read 1 1 1 ∷ [])) (told.Reply 7 1 0 ∷ []) }
    ensures not_of_an_earlier_term { (counting 3).message 0 waits_in_term_three 1 (in_round 1 (appended 1 true 1))
        ≡ telling waits_in_term_three [] }
    ensures not_before_its_read_index_is_applied { ((counting 1).timeout 0 (reading alone 1 (0 ∷ []) (read 1 1 2 ∷ []) [])).outputs ≡ [] }

    ensures dropped_by_a_later_term { (counting 3).message 0 one_waits 1 (in_round 0 (vote 2 false))
        ≡ telling (idle 3 (unseated 2 of_three)) [] }
    ensures and_by_its_acknowledgement { (counting 3).message 0 one_waits 1 (in_round 1 (appended 2 true 1))
        ≡ telling (idle 3 (unseated 2 of_three)) [] }
{}

/// Rounds on messages: the leader's with its entries, and as a node gives it back.
pub fn worked_rounds()
    ensures with_the_timer { (counting 3).timeout 0 (reading of_three 4 (0 ∷ 0 ∷ 0 ∷ []) [] [])
        ≡ sending (reading of_three 4 (0 ∷ 0 ∷ 0 ∷ []) [] [])
        ((1, in_round 4 (append 1 1 1 1 [])) ∷ (2, in_round 4 (append 1 0 0 1 (noop 1 ∷ []))) ∷ []) }
    ensures of_a_new_leader { (counting 3).message 0 (idle 3 (candidate 1 0 1 [])) 1 (in_round 0 (vote 1 true))
        ≡ sending (idle 3 elected) (to_each (1 ∷ 2 ∷ []) (in_round 0 (append 1 0 0 0 (noop 1 ∷ [])))) }
    ensures acknowledged { (counting 3).message 1 (idle 3 (follower 1 (Some 0) [])) 0 (in_round 4 (append 1 0 0 0 (noop 1 ∷ [])))
        ≡ sending (idle 3 (follower 1 (Some 0) (noop 1 ∷ []))) ((0, in_round 4 (appended 1 true 1)) ∷ []) }
    ensures acknowledged_with_a_refusal { (counting 3).message 1 (idle 3 (follower 1 (Some 0) [])) 0 (in_round 4 (append 1 1 1 1 []))
        ≡ sending (idle 3 (follower 1 (Some 0) [])) ((0, in_round 4 (appended 1 false 1)) ∷ []) }
    ensures acknowledged_in_a_later_term { (counting 3).message 1 (idle 3 (follower 1 (Some 0) [])) 0 (in_round 4 (append 2 1 1 1 []))
        ≡ sending (idle 3 (follower 2 None [])) ((0, in_round 4 (appended 2 false 1)) ∷ []) }
    ensures none_of_an_earlier_term { (counting 3).message 1 (idle 3 (follower 2 None [])) 0 (in_round 4 (append 1 1 1 1 []))
        ≡ sending (idle 3 (follower 2 None [])) ((0, in_round 0 (appended 2 false 1)) ∷ []) }
    ensures none_with_a_vote { (counting 3).message 1 (idle 3 (follower 1 None [])) 0 (in_round 0 (ask 1 0 0))
        ≡ sending (idle 3 (follower 1 (Some 0) [])) ((0, in_round 0 (vote 1 true)) ∷ []) }
{}

/// What a node drops, what a start makes of what it kept, what is a step without a read, and the world of Raft that is left
/// without reads.
pub fn worked_drops()
    ensures a_later_term_drops { DropsReads 3 one_waits ((counting 3).message 0 one_waits 1 (in_round 0 (vote 2 false))) }
    ensures its_timer_keeps { DropsReads 3 one_waits ((counting 3).timeout 0 one_waits) }
    ensures not_where_a_follower_keeps { DropsReads 3 one_waits
        (telling (reading (unseated 2 of_three) 1 (0 ∷ 0 ∷ 0 ∷ []) (read 1 1 1 ∷ []) []) []) → ⊥ }
    ensures starts_with_none { (read_recovery 3 counter).reboot 0 ((read_recovery 3 counter).keep one_waits)
        ≡ idle 3 (follower 1 (Some 0) (noop 1 ∷ [])) }

    ensures a_write_is_no_read { NoRead (cluster 3) (step.In 0 (asked 1 5)) }
    ensures a_read_is_one { NoRead (cluster 3) (step.In 0 (asked 1 0)) → ⊥ }
    ensures nor_is_a_timeout { NoRead (cluster 3) (step.Tick 0) }
    ensures without_its_reads { (erased_world (record (first (cluster 3)) { state = λ _. one_waits })).state 0 ≡ of_three }
    ensures without_its_round { erased_packet (record { source = 0; destination = 1; content = in_round 4 (vote 1 true); copies = 2 })
        ≡ record { source = 0; destination = 1; content = vote 1 true; copies = 2 } }
{}
