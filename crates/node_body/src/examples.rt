ghost use Rattle.std.specs.Prelude.{◌≡◌, ◌∷◌, ◌++◌, [], None, Some, Ok, Err, codes, take, drop};
ghost use Rattle.kv_machine.specs.declared.cmd.KvCmd.TheVariants as command;
ghost use Rattle.node_body.specs.Bodies.{body, body_of, entry_in, kept_as, read_body};
ghost use Rattle.node_body.specs.Examples.{before_greatest, cluster, decided, first_kept, first_slot, first_state, found, found_by, found_by_table, gated_records, greatest, journal_left, new_body, new_change, new_held, no_op, no_op_of, no_op_record, number_of_eight, number_of_four, old_body, old_first, old_held, old_put, old_voted, one_entry, other_cluster, past_greatest, record_of, slot, table_put, vote_record, voted_kept, voted_slot, voted_state, who_as, who_on};
ghost use Rattle.node_body.specs.GatedRecords.{AreGated, patched_by, spell_gated};
ghost use Rattle.node_body.specs.Journals.{change, change_as, journal_as, patched};
ghost use Rattle.node_body.specs.Slots.{stack_of_slot};
ghost use Rattle.node_body.specs.declared.version.Version.TheVariants.{One};
ghost use Rattle.node_body.specs.declared.why.Why.TheVariants as why;
ghost use Rattle.vst_base.specs.declared.stack.StackId.TheVariants as stack;
ghost use Rattle.vst_base.specs.declared.what.What.TheVariants as what;
ghost use Rattle.wire_messages.specs.KvBytes.{kv_command};

/// Bodies are put and taken.
#[tactic(auto, unfolding(wire_fields::specs::Bytes::number_bytes, wire_fields::specs::Bytes::number_in, wire_fields::specs::Bytes::has_bytes, wire_fields::specs::Bytes::read_number, crate::specs::Journals::from_gate))]
pub fn worked_bodies()
    ensures put { (body stack.KvRaft kv_command).spell (body_of (who_as 0 3 cluster) voted_kept) ≡ new_body 5 0 3 voted_state }
    ensures taken { read_body stack.KvRaft kv_command (new_body 5 0 3 voted_state) ≡ Some (who_as 0 3 cluster, voted_kept) }
    ensures a_no_op { read_body stack.KvRaft kv_command (new_body 5 0 3 (one_entry no_op))
        ≡ Some (who_as 0 3 cluster, kept_as 1 (Some 1) (record { term = 1; what = what.Noop } ∷ [])) }
    ensures of_version_one { read_body stack.KvRaft kv_command (old_body 5 0 3 voted_state) ≡ None }
    ensures a_byte_after { read_body stack.KvRaft kv_command (new_body 5 0 3 voted_state ++ 0 ∷ []) ≡ None }
    ensures no_request_without_its_byte { read_body stack.KvRaft kv_command (new_body 5 0 3 (one_entry old_put)) ≡ None }

    // The same commands on another stack: its byte tells them apart.
    ensures put_on_another { (body stack.LockSeq kv_command).spell (body_of (who_on stack.LockSeq 0 3 cluster) voted_kept)
        ≡ new_body 2 0 3 voted_state }
    ensures taken_on_another { read_body stack.LockSeq kv_command (new_body 2 0 3 voted_state)
        ≡ Some (who_on stack.LockSeq 0 3 cluster, voted_kept) }
    ensures not_taken_on_the_first { read_body stack.KvRaft kv_command (new_body 2 0 3 voted_state) ≡ None }
    ensures nor_of_the_first_on_it { read_body stack.LockSeq kv_command (new_body 5 0 3 voted_state) ≡ None }
{}

/// What slots are for node 0 of 3.
#[tactic(auto, unfolding(wire_fields::specs::Bytes::number_bytes, wire_fields::specs::Bytes::number_in, wire_fields::specs::Bytes::has_bytes, wire_fields::specs::Bytes::read_number, crate::specs::Journals::from_gate))]
pub fn worked_slots()
    ensures old_first { found old_first ≡ Ok (old_held first_kept 0 0) }
    ensures old_voted { found old_voted ≡ Ok (old_held voted_kept 0 0) }
    ensures old_put { found (slot 49 (old_body 5 0 3 (one_entry old_put)))
        ≡ Ok (old_held (kept_as 1 (Some 1)
        (record { term = 1; what = what.Request 7 1 0 (command.Put (codes "a") (codes "x")) } ∷ [])) 0 0) }
    ensures first { found (first_slot ++ 0 ∷ []) ≡ Ok (new_held first_kept 1000 0) }
    ensures voted { found (voted_slot ++ 0 ∷ []) ≡ Ok (new_held voted_kept 1000 0) }
    ensures without_a_gate { found voted_slot ≡ Ok (new_held voted_kept 0 0) }
{}

/// Records: what each makes of a log that is not empty, its bytes, and in which ranges it is.
#[tactic(auto, unfolding(wire_fields::specs::Bytes::number_bytes, wire_fields::specs::Bytes::number_in, wire_fields::specs::Bytes::has_bytes, wire_fields::specs::Bytes::read_number, crate::specs::Journals::from_gate))]
pub fn worked_records()
    ensures keeps_a_front { patched (change_as 3 None 1 (no_op_of 3 ∷ [])) (kept_as 1 (Some 1) (no_op_of 1 ∷ no_op_of 2 ∷ []))
        ≡ kept_as 3 None (no_op_of 1 ∷ no_op_of 3 ∷ []) }
    ensures keeps_all { patched (change_as 3 (Some 0) 2 []) (kept_as 1 (Some 1) (no_op_of 1 ∷ no_op_of 2 ∷ []))
        ≡ kept_as 3 (Some 0) (no_op_of 1 ∷ no_op_of 2 ∷ []) }
    ensures keeps_none { patched (change_as 3 None 0 (no_op_of 3 ∷ [])) (kept_as 1 (Some 1) (no_op_of 1 ∷ no_op_of 2 ∷ []))
        ≡ kept_as 3 None (no_op_of 3 ∷ []) }
    ensures cuts_alone { patched (change_as 3 None 1 []) (kept_as 1 (Some 1) (no_op_of 1 ∷ no_op_of 2 ∷ []))
        ≡ kept_as 3 None (no_op_of 1 ∷ []) }

    // Bytes, and what stands after them.
    ensures spelled { new_change.spell (change_as 1 (Some 1) 2 (no_op_of 1 ∷ [])) ≡ no_op_record 2 }
    ensures read { new_change.read (no_op_record 2) ≡ Some (change_as 1 (Some 1) 2 (no_op_of 1 ∷ []), []) }
    ensures read_before_others { new_change.read (vote_record ++ 7 ∷ []) ≡ Some (change_as 1 (Some 1) 0 [], 7 ∷ []) }
    ensures a_part { new_change.read (take 25 (no_op_record 2)) ≡ None }
    ensures of_version_one { (change 3 (entry_in One kv_command)).read (no_op_record 2) ≡ None }

    // The last of its entries stands at the greatest index at most.
    ensures keeps_the_most { new_change.read (record_of greatest (number_of_four 0)) ≡ Some (change_as 1 None 1000000 [], []) }
    ensures up_to_the_greatest { new_change.read (record_of before_greatest (number_of_four 1) ++ no_op)
        ≡ Some (change_as 1 None 999999 (no_op_of 1 ∷ []), []) }
    ensures past_the_greatest { new_change.read (record_of greatest (number_of_four 1) ++ no_op) ≡ None }
    ensures keeps_too_many { new_change.read (record_of past_greatest (number_of_four 0)) ≡ None }
    ensures too_many_entries { new_change.read (record_of (number_of_four 0) past_greatest) ≡ None }

    // A vote is for none, or for a node of so many; a term has 63 bits.
    ensures vote_for_the_last { new_change.read (number_of_eight 1 ++ (2 ∷ (number_of_four 0 ++ number_of_four 0)))
        ≡ Some (change_as 1 (Some 2) 0 [], []) }
    ensures vote_for_no_node { new_change.read (number_of_eight 1 ++ (3 ∷ (number_of_four 0 ++ number_of_four 0))) ≡ None }
    ensures term_past_the_greatest { new_change.read (128 ∷ drop 1 vote_record) ≡ None }

    // By their list: each after an open gate.
    ensures gated { spell_gated new_change gated_records ≡ 1 ∷ (vote_record ++ 3 ∷ no_op_record 0) }
    ensures gated_make { patched_by first_kept gated_records ≡ kept_as 1 (Some 1) (no_op_of 1 ∷ []) }
    ensures closed_before_one { AreGated new_change first_kept ((2, change_as 1 (Some 1) 0 []) ∷ []) → ⊥ }
    ensures keeps_what_the_first_cut { AreGated new_change (kept_as 1 None (no_op_of 1 ∷ []))
        ((1, change_as 1 None 0 []) ∷ (1, change_as 1 None 1 []) ∷ []) → ⊥ }
{}

/// What stands after a body.
#[tactic(auto, unfolding(wire_fields::specs::Bytes::number_bytes, wire_fields::specs::Bytes::number_in, wire_fields::specs::Bytes::has_bytes, wire_fields::specs::Bytes::read_number, crate::specs::Journals::from_gate))]
pub fn worked_journals()
    ensures one_record { found (first_slot ++ 1 ∷ (vote_record ++ 0 ∷ [])) ≡ Ok (new_held voted_kept 999 0) }
    ensures two_records { found (first_slot ++ 1 ∷ (vote_record ++ 1 ∷ (no_op_record 0 ++ 0 ∷ [])))
        ≡ Ok (new_held (kept_as 1 (Some 1) (record { term = 1; what = what.Noop } ∷ [])) 998 0) }
    ensures cuts_the_log { found (slot 43 (new_body 5 0 3 (one_entry no_op)) ++ 1 ∷ (vote_record ++ 0 ∷ [])) ≡ Ok (new_held voted_kept 999 0) }
    ensures adds_to_the_log { found (slot 43 (new_body 5 0 3 (one_entry no_op)) ++ 1 ∷ (no_op_record 1 ++ 0 ∷ []))
        ≡ Ok (new_held (kept_as 1 (Some 1) (record { term = 1; what = what.Noop } ∷ record { term = 1; what = what.Noop } ∷ [])) 999 0) }
    ensures of_an_old_slot { found (old_first ++ 1 ∷ (vote_record ++ 0 ∷ [])) ≡ Ok (old_held voted_kept 999 0) }

    // An even gate hides what stands after it.
    ensures hidden { found (old_first ++ 2 ∷ 255 ∷ 255 ∷ []) ≡ Ok (old_held first_kept 1000 2) }
    ensures hidden_record { found (first_slot ++ 0 ∷ (vote_record ++ 0 ∷ [])) ≡ Ok (new_held first_kept 1000 18) }
    ensures hidden_part { found (first_slot ++ 0 ∷ take 9 vote_record) ≡ Ok (new_held first_kept 1000 9) }

    // A gate that is torn is even or odd.
    ensures torn_even { found (first_slot ++ 126 ∷ (vote_record ++ 0 ∷ [])) ≡ Ok (new_held first_kept 1000 18) }
    ensures torn_odd { found (first_slot ++ 127 ∷ (vote_record ++ 0 ∷ [])) ≡ Ok (new_held voted_kept 999 0) }

    // An odd gate needs a whole record in its ranges, and a gate after it.
    ensures no_record { found (old_first ++ 1 ∷ []) ≡ Err why.Journal }
    ensures part_of_a_record { found (first_slot ++ 1 ∷ take 16 vote_record) ≡ Err why.Journal }
    ensures no_gate_after { found (first_slot ++ 1 ∷ vote_record) ≡ Err why.Journal }
    ensures more_kept_than_there_is { found (first_slot ++ 1 ∷ (no_op_record 1 ++ 0 ∷ [])) ≡ Err why.Journal }
    ensures no_op_in_an_old_slot { found (old_first ++ 1 ∷ (no_op_record 0 ++ 0 ∷ [])) ≡ Err why.Journal }
    ensures the_last_record { journal_left 1 (1 ∷ (vote_record ++ 0 ∷ [])) ≡ Some (journal_as voted_kept 0 0) }
    ensures a_record_too_many { journal_left 0 (1 ∷ (vote_record ++ 0 ∷ [])) ≡ None }
{}

/// Which fronts decide what a slot is.
#[tactic(auto, unfolding(wire_fields::specs::Bytes::number_bytes, wire_fields::specs::Bytes::number_in, wire_fields::specs::Bytes::has_bytes, wire_fields::specs::Bytes::read_number, crate::specs::Journals::from_gate))]
pub fn worked_fronts()
    // Those that have the first closed gate, which hides what comes later too.
    ensures a_closed_gate { decided (first_slot ++ 0 ∷ []) ≡ Some (Ok (new_held first_kept 1000 0)) }
    ensures what_it_hides { decided (first_slot ++ 2 ∷ 255 ∷ []) ≡ Some (Ok (new_held first_kept 1000 1)) }
    ensures and_more { found (first_slot ++ 2 ∷ 255 ∷ 1 ∷ 255 ∷ []) ≡ Ok (new_held first_kept 1000 3) }
    ensures a_gate_after_a_record { decided (first_slot ++ 1 ∷ (vote_record ++ 0 ∷ [])) ≡ Some (Ok (new_held voted_kept 999 0)) }
    ensures of_an_old_slot { decided (old_first ++ 2 ∷ 255 ∷ []) ≡ Some (Ok (old_held first_kept 1000 1)) }
    ensures of_another_node { decided (slot 34 (new_body 5 1 3 first_state) ++ 0 ∷ []) ≡ Some (Err (why.Node 1 0)) }
    ensures of_another_stack { decided (slot 34 (new_body 7 0 3 first_state) ++ 0 ∷ []) ≡ Some (Err (why.Stack 7 5)) }

    // What is no body is none whatever follows.
    ensures no_body { decided (slot 18 (84 ∷ drop 1 (old_body 5 0 3 first_state))) ≡ Some (Err why.Body) }

    // A front that ends before such a gate does not.
    ensures no_bytes { decided [] ≡ None }
    ensures part_of_a_body { decided (take 21 old_voted) ≡ None }
    ensures no_gate { decided voted_slot ≡ None }
    ensures no_gate_of_another_node { decided (slot 34 (new_body 5 1 3 first_state)) ≡ None }
    ensures no_gate_of_another_stack { decided (slot 34 (new_body 7 0 3 first_state)) ≡ None }
    ensures an_open_gate { decided (first_slot ++ 1 ∷ []) ≡ None }
    ensures part_of_a_record { decided (first_slot ++ 1 ∷ take 16 vote_record) ≡ None }
    ensures a_record_alone { decided (first_slot ++ 1 ∷ vote_record) ≡ None }
{}

/// Each why, and that the first is given.
#[tactic(auto, unfolding(wire_fields::specs::Bytes::number_bytes, wire_fields::specs::Bytes::number_in, wire_fields::specs::Bytes::has_bytes, wire_fields::specs::Bytes::read_number, crate::specs::Journals::from_gate))]
pub fn worked_refusals()
    ensures no_bytes { found [] ≡ Err why.Slot }
    ensures part_of_a_length { found (0 ∷ 0 ∷ 0 ∷ []) ≡ Err why.Slot }
    ensures cut_short { found (take 21 old_voted) ≡ Err why.Slot }
    ensures another_letter { found (slot 18 (84 ∷ drop 1 (old_body 5 0 3 first_state))) ≡ Err why.Body }
    ensures version_three { found (slot 34 (83 ∷ 3 ∷ drop 2 (new_body 5 0 3 first_state))) ≡ Err why.Body }
    ensures a_byte_more { found (slot 19 (old_body 5 0 3 first_state ++ 0 ∷ [])) ≡ Err why.Body }
    ensures another_stack_of_packets { found (slot 18 (old_body 4 0 3 first_state)) ≡ Err why.Body }
    ensures no_such_node { found (slot 34 (new_body 5 3 3 first_state)) ≡ Err why.Body }
    ensures six_old_nodes { found (slot 18 (old_body 5 0 6 first_state)) ≡ Err why.Body }
    ensures ten_nodes { found (slot 34 (new_body 5 0 10 first_state)) ≡ Err why.Body }
    ensures vote_for_no_such_node { found (slot 34 (new_body 5 0 3 (number_of_eight 0 ++ (3 ∷ number_of_four 0)))) ≡ Err why.Body }
    ensures term_past_the_greatest { found (slot 34 (new_body 5 0 3 (128 ∷ drop 1 first_state))) ≡ Err why.Body }
    ensures another_stack { found (slot 34 (new_body 7 0 3 first_state)) ≡ Err (why.Stack 7 5) }
    ensures with_its_commands { found (slot 48 (old_body 7 0 3 (one_entry table_put))) ≡ Err (why.Stack 7 5) }
    ensures with_others { found (slot 49 (old_body 7 0 3 (one_entry old_put))) ≡ Err why.Body }
    ensures another_node { found (slot 34 (new_body 5 1 3 first_state)) ≡ Err (why.Node 1 0) }
    ensures another_size { found (slot 34 (new_body 5 0 5 first_state)) ≡ Err (why.Cluster 5 3) }
    ensures another_name { found_by (who_as 0 3 other_cluster) (voted_slot ++ 0 ∷ []) ≡ Err (why.Name cluster other_cluster) }
    ensures no_name { found_by (who_as 0 3 other_cluster) old_voted ≡ Ok (old_held voted_kept 0 0) }

    // The first that applies.
    ensures journal_before_node { found (slot 34 (new_body 5 1 3 first_state) ++ 1 ∷ []) ≡ Err why.Journal }
    ensures journal_before_size { found (slot 34 (new_body 5 0 5 first_state) ++ 1 ∷ []) ≡ Err why.Journal }
    ensures journal_before_name { found_by (who_as 0 3 other_cluster) (first_slot ++ 1 ∷ []) ≡ Err why.Journal }
    ensures node_after_a_journal { found (slot 34 (new_body 5 1 3 first_state) ++ 1 ∷ (vote_record ++ 0 ∷ [])) ≡ Err (why.Node 1 0) }
    ensures vote_of_its_own_size { found (slot 34 (new_body 5 0 5 first_state)
        ++ 1 ∷ (number_of_eight 1 ++ (4 ∷ (number_of_four 0 ++ (number_of_four 0 ++ 0 ∷ []))))) ≡ Err (why.Cluster 5 3) }
    ensures vote_of_no_node { found (first_slot
        ++ 1 ∷ (number_of_eight 1 ++ (3 ∷ (number_of_four 0 ++ (number_of_four 0 ++ 0 ∷ []))))) ≡ Err why.Journal }
    ensures journal_before_stack { found (slot 34 (new_body 7 0 3 first_state) ++ 1 ∷ []) ≡ Err why.Journal }
    ensures stack_before_node { found (slot 34 (new_body 7 1 5 first_state)) ≡ Err (why.Stack 7 5) }
    ensures node_before_size { found (slot 34 (new_body 5 1 5 first_state)) ≡ Err (why.Node 1 0) }
    ensures size_before_name { found_by (who_as 0 5 other_cluster) voted_slot ≡ Err (why.Cluster 3 5) }
{}

/// Which stack's slot bytes are, and what a node of the other stack that keeps logs finds.
#[tactic(auto, unfolding(wire_fields::specs::Bytes::number_bytes, wire_fields::specs::Bytes::number_in, wire_fields::specs::Bytes::has_bytes, wire_fields::specs::Bytes::read_number, crate::specs::Journals::from_gate))]
pub fn worked_stacks()
    ensures key_value_store { stack_of_slot (first_slot ++ 0 ∷ []) ≡ Ok 5 }
    ensures lock_table { stack_of_slot (slot 48 (old_body 7 0 3 (one_entry table_put))) ≡ Ok 7 }
    ensures store_with_reads { stack_of_slot (slot 34 (new_body 13 0 3 first_state)) ≡ Ok 13 }
    ensures table_with_reads { stack_of_slot (slot 34 (new_body 14 0 3 first_state)) ≡ Ok 14 }
    ensures none_of_version_one { stack_of_slot (slot 18 (old_body 13 0 3 first_state)) ≡ Err why.Body }
    ensures of_packets { stack_of_slot (slot 18 (old_body 4 0 3 first_state)) ≡ Err why.Body }
    ensures with_other_commands { stack_of_slot (slot 49 (old_body 7 0 3 (one_entry old_put))) ≡ Err why.Body }
    ensures no_record { stack_of_slot (slot 34 (new_body 7 0 3 first_state) ++ 1 ∷ []) ≡ Err why.Journal }
    ensures no_bytes { stack_of_slot [] ≡ Err why.Slot }

    // A node of the lock table.
    ensures another_stack { found_by_table first_slot ≡ Err (why.Stack 5 7) }
    ensures another_journal { found_by_table (first_slot ++ 1 ∷ []) ≡ Err why.Journal }
    ensures another_node { found_by_table (slot 34 (new_body 7 1 3 first_state)) ≡ Err (why.Node 1 0) }
    ensures no_body { found_by_table (slot 34 (new_body 7 3 3 first_state)) ≡ Err why.Body }
{}
