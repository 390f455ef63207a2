ghost use Rattle.std.specs.Prelude.{◌≡◌, true, false, [], ◌∷◌, Some, None, slice_index};
ghost use Rattle.vst_base.specs.LogExamples.{log, noop};
ghost use Rattle.raft_snapshots.specs.Examples.{append, appended, cut, deposed, entries, five_added, follower, just_applied, lagging, leader, part_of, piece, restored, sending, spelled, three, two_left, unapplied, whole_came, wish, with_five_added, with_peers, with_two_bytes};
ghost use Rattle.raft_snapshots.specs.Logs.{accepted, advance, entries_after, has_conflict, is_up_to_date, last_index, last_term, matches, shortened, term_at};
ghost use Rattle.raft_snapshots.specs.Replicating.{from_base};
ghost use Rattle.raft_snapshots.specs.Snapshots.{MAX_PIECE, compacted, snap, snap_keep, snap_reboot};
ghost use Rattle.raft_xform.specs.Examples.{peer};

/// Logs whose first entries may be gone: two have the indexes 5 and 6, behind one of term 2.
pub fn worked_logs()
    ensures last_of_two { last_index two_left ≡ 6 }
    ensures its_term { last_term two_left ≡ 3 }
    ensures last_of_none { last_index (cut 4 2 []) ≡ 4 }
    ensures the_term_of_one_that_is_gone { last_term (cut 4 2 []) ≡ 2 }
    ensures no_term_below_the_base { term_at two_left 3 ≡ 0 }
    ensures no_term_past_the_end { term_at two_left 7 ≡ 0 }
    ensures matches_at_the_base { matches two_left 4 2 ≡ true }
    ensures not_below_it { matches two_left 3 0 ≡ false }
    ensures nor_past_the_end { matches two_left 7 0 ≡ false }
    ensures after_the_base { entries_after two_left 4 1 ≡ log (2 ∷ []) }
    ensures after_the_next { entries_after two_left 5 9 ≡ log (3 ∷ []) }

    ensures another_last_entry { accepted two_left 5 (log (4 ∷ 4 ∷ [])) ≡ cut 4 2 (2 ∷ 4 ∷ 4 ∷ []) }
    ensures committed_conflicts { has_conflict two_left 5 4 (log (3 ∷ [])) ≡ true }
    ensures not_at_the_base_alone { has_conflict two_left 4 4 (log (3 ∷ [])) ≡ false }
    ensures shortened_by_one { shortened two_left 5 ≡ cut 5 2 (3 ∷ []) }
    ensures shortened_to_nothing { shortened two_left 6 ≡ cut 6 3 [] }
    ensures as_long_as_what_is_gone { is_up_to_date (cut 4 2 []) 4 2 ≡ true }
    ensures shorter_than_that { is_up_to_date (cut 4 2 []) 3 2 ≡ false }
    ensures commits_behind_the_base { advance 3 0 (slice_index (0 ∷ 6 ∷ 0 ∷ [])) two_left 3 4 6 ≡ 6 }
    ensures nothing_of_an_earlier_term { advance 3 0 (slice_index (0 ∷ 5 ∷ 0 ∷ [])) two_left 3 4 6 ≡ 4 }

    ensures what_is_behind_the_base { from_base two_left (entries 2 1 (2 ∷ 2 ∷ 2 ∷ 3 ∷ [])) ≡ entries 4 2 (2 ∷ 3 ∷ []) }
    ensures all_where_it_begins_there { from_base two_left (entries 4 1 (2 ∷ [])) ≡ entries 4 1 (2 ∷ []) }
{}

/// What a node's log becomes, and what a leader sends: entries, or, where some that a node needs are gone, a piece of its snapshot.
pub fn worked_leaders()
    ensures four_go { three.message 1 (lagging None) 0 (append 1 0 0 4 (noop 1 ∷ noop 1 ∷ noop 1 ∷ noop 1 ∷ []))
        ≡ sending (just_applied (noop 1 ∷ noop 1 ∷ noop 1 ∷ noop 1 ∷ []) (follower 1 (cut 4 1 []) 4 None)) ((0, appended 1 true 4) ∷ []) }
    ensures three_stay { (three.message 1 (lagging None) 0 (append 1 0 0 4 (noop 1 ∷ noop 1 ∷ noop 1 ∷ []))).state.log
        ≡ record { base = 0; base_term = 0; entries = noop 1 ∷ noop 1 ∷ noop 1 ∷ [] } }
    ensures with_the_sessions { (compacted (with_five_added (follower 1 (cut 0 0 (1 ∷ 1 ∷ [])) 2 None))).more.snapshot ≡ five_added }
    ensures it_is_noted { (three.message 1 (unapplied []) 0 (append 1 1 1 2 (noop 1 ∷ []))).state.more.just ≡ noop 1 ∷ [] }
    ensures and_cleared_by_the_next { (three.message 0 (just_applied (noop 1 ∷ []) (leader 2)) 1 (wish 1 4 2)).state ≡ leader 2 }

    ensures a_piece_or_entries { three.timeout 0 (leader 0)
        ≡ sending (leader 0) ((1, piece 1 4 0 (1 ∷ 2 ∷ 3 ∷ []) true) ∷ (2, append 1 4 1 4 []) ∷ []) }
    ensures from_its_place_on { (three.timeout 0 (leader 2)).sends ≡ (1, piece 1 4 2 (3 ∷ []) true) ∷ (2, append 1 4 1 4 []) ∷ [] }
    ensures of_so_many_bytes { MAX_PIECE ≡ 8192 }
    ensures another_place { three.message 0 (leader 0) 1 (wish 1 4 2) ≡ sending (leader 2) ((1, piece 1 4 2 (3 ∷ []) true) ∷ []) }
    ensures its_end { three.message 0 (leader 0) 1 (wish 1 4 3) ≡ sending (leader 3) ((1, piece 1 4 3 [] true) ∷ []) }
    ensures not_past_it { three.message 0 (leader 0) 1 (wish 1 4 4) ≡ sending (leader 0) [] }
    ensures not_where_it_is { three.message 0 (leader 2) 1 (wish 1 4 2) ≡ sending (leader 2) [] }
    ensures not_of_another_snapshot { three.message 0 (leader 0) 1 (wish 1 3 2) ≡ sending (leader 0) [] }
    ensures a_new_leader_begins_anew { (snap (spelled [])).leads 3 (leader 2).more ≡ (leader 0).more }
    ensures one_behind_gets_entries { (three.message 0 (leader 0) 1 (appended 1 true 4)).state
        ≡ with_peers (peer 5 0 ∷ peer 5 4 ∷ peer 5 4 ∷ []) (leader 0) }
{}

/// Pieces of a snapshot that come to a node.
pub fn worked_pieces()
    ensures the_first_is_kept { three.message 1 (lagging None) 0 (piece 1 4 0 (1 ∷ 2 ∷ []) false)
        ≡ sending with_two_bytes ((0, wish 1 4 2) ∷ []) }
    ensures the_next_goes_on { three.message 1 with_two_bytes 0 (piece 1 4 2 (3 ∷ []) false)
        ≡ sending (lagging (Some (part_of 1 4 (1 ∷ 2 ∷ 3 ∷ [])))) ((0, wish 1 4 3) ∷ []) }
    ensures the_first_begins_anew { three.message 1 with_two_bytes 0 (piece 1 4 0 (1 ∷ []) false)
        ≡ sending (lagging (Some (part_of 1 4 (1 ∷ [])))) ((0, wish 1 4 1) ∷ []) }
    ensures another_does_not_fit { three.message 1 with_two_bytes 0 (piece 1 4 1 (2 ∷ []) true)
        ≡ sending with_two_bytes ((0, wish 1 4 2) ∷ []) }
    ensures nor_one_of_another_snapshot { three.message 1 with_two_bytes 0 (piece 1 5 2 (3 ∷ []) true)
        ≡ sending with_two_bytes ((0, wish 1 5 0) ∷ []) }
    ensures unless_it_begins { three.message 1 with_two_bytes 0 (piece 1 5 0 (3 ∷ []) false)
        ≡ sending (lagging (Some (part_of 1 5 (3 ∷ [])))) ((0, wish 1 5 1) ∷ []) }
    ensures not_of_an_earlier_term { three.message 1 (follower 2 (cut 0 0 []) 0 None) 0 (piece 1 4 0 (1 ∷ []) true)
        ≡ sending (follower 2 (cut 0 0 []) 0 None) ((0, wish 2 4 0) ∷ []) }
    ensures of_a_later_term { three.message 0 (leader 2) 1 (piece 2 2 0 (1 ∷ []) true)
        ≡ sending (deposed (leader 2)) ((1, appended 2 true 2) ∷ []) }
    ensures not_at_a_leader { three.message 0 (leader 2) 1 (piece 1 9 0 (1 ∷ []) true) ≡ sending (leader 2) [] }
    ensures a_node_has_what_is_committed { three.message 1 (follower 1 (cut 0 0 (1 ∷ 1 ∷ [])) 2 None) 0 (piece 1 2 0 (1 ∷ []) false)
        ≡ sending (follower 1 (cut 0 0 (1 ∷ 1 ∷ [])) 2 None) ((0, appended 1 true 2) ∷ []) }
    ensures what_cannot_be_read_is_dropped { three.message 1 with_two_bytes 0 (piece 1 4 2 (3 ∷ []) true)
        ≡ sending (lagging None) [] }
    ensures the_whole_is_taken { whole_came 9 (lagging (Some (part_of 1 4 (1 ∷ []))))
        ≡ sending (restored 9 (follower 1 (cut 4 1 []) 4 None)) ((0, appended 1 true 4) ∷ []) }
    ensures with_entries_behind_it { (whole_came 0 (unapplied (1 ∷ 1 ∷ 1 ∷ 2 ∷ []))).state.log ≡ cut 4 1 (2 ∷ []) }
    ensures with_none_of_another_log { (whole_came 0 (unapplied (1 ∷ 1 ∷ 2 ∷ 2 ∷ []))).state.log ≡ cut 4 1 [] }
{}

/// Entries that begin below a log's base, and nodes that start again.
pub fn worked_starts()
    ensures below_the_base { three.message 1 (follower 1 two_left 4 None) 0 (append 1 1 1 4 (log (1 ∷ 1 ∷ [])))
        ≡ sending (follower 1 two_left 4 None) ((0, appended 1 true 3) ∷ []) }
    ensures over_the_base { three.message 1 (follower 1 two_left 4 None) 0 (append 1 3 1 4 (log (2 ∷ 2 ∷ 4 ∷ [])))
        ≡ sending (follower 1 (cut 4 2 (2 ∷ 4 ∷ [])) 4 None) ((0, appended 1 true 6) ∷ []) }
    ensures refused_by_its_own_index { three.message 1 (follower 1 two_left 6 None) 0 (append 1 3 1 4 (log (2 ∷ 2 ∷ 4 ∷ [])))
        ≡ sending (follower 1 two_left 6 None) ((0, appended 1 false 3) ∷ []) }
    ensures starts_at_its_snapshot { snap_reboot (snap_keep (follower 1 two_left 6 (Some (part_of 1 4 [])))) ≡ follower 1 two_left 4 None }
    ensures places_are_lost { (snap_reboot (snap_keep (leader 2))).more.places ≡ [] }
{}
