ghost use Rattle.std.specs.Prelude.{◌≡◌, [], ◌∷◌, ◌++◌, take, true};
ghost use Rattle.node_run.specs.Examples.{a_is_x, answered, append_to, at_port, datagram, granted, leads, noop_entry, number_of_eight, put_entry, said_after, says, settings, votes};
ghost use Rattle.node_run.specs.Saying.{HasFewBytes, IsOtherNode, MaySay};
ghost use Rattle.raft_types.specs.declared.client.RaftOut.TheVariants.{Full, NotLeader, Reply};
ghost use Rattle.raft_types.specs.declared.msg.RaftMsg.TheVariants as msg;
ghost use Rattle.vst_base.specs.declared.stack.StackId.TheVariants as stack;
ghost use Rattle.wire_messages.specs.KvBytes.{kv_command, kv_output};
ghost use Rattle.wire_messages.specs.RaftBytes.{raft_message};

/// What packets and outputs say: the packets first, each list in its order. A node or a client without an address is told nothing.
#[tactic(auto, unfolding(wire_fields::specs::Bytes::number_bytes, wire_fields::specs::Bytes::number_in, wire_fields::specs::Bytes::has_bytes, wire_fields::specs::Bytes::read_number))]
pub fn worked_sayings()
    ensures both { says ((2, granted) ∷ (1, granted) ∷ []) (NotLeader 0 1 ∷ Full 0 2 ∷ []) ≡
        (at_port 7002, datagram 5 0 0 2 (votes (number_of_eight 1) 1)) ∷ (at_port 7001, datagram 5 0 0 1 (votes (number_of_eight 1) 1))
        ∷ answered 1 (2 ∷ []) ∷ answered 2 (3 ∷ []) ∷ [] }
    ensures a_reply { says [] (Reply 0 1 a_is_x ∷ []) ≡ answered 1 (1 ∷ 1 ∷ 97 ∷ 1 ∷ 0 ∷ 1 ∷ 120 ∷ 0 ∷ []) ∷ [] }
    ensures without_a_slot { says ((1, granted) ∷ []) (Reply 1 1 a_is_x ∷ Full 0 2 ∷ []) ≡
        (at_port 7001, datagram 5 0 0 1 (votes (number_of_eight 1) 1)) ∷ answered 2 (3 ∷ []) ∷ [] }
    ensures to_no_node { says ((3, granted) ∷ (1, granted) ∷ []) [] ≡ (at_port 7001, datagram 5 0 0 1 (votes (number_of_eight 1) 1)) ∷ [] }
{}

/// What a leader says: its no-op to each other node, two requests as they come, and when the first of them is committed the second one
/// to the node that has no more, and then the answer.
#[tactic(auto, unfolding(wire_fields::specs::Bytes::number_bytes, wire_fields::specs::Bytes::number_in, wire_fields::specs::Bytes::has_bytes, wire_fields::specs::Bytes::read_number))]
pub fn worked_leading()
    ensures its_first_entry { said_after 1 (take 4 leads) ≡
        (at_port 7001, append_to 1 0 0 0 1 noop_entry) ∷ (at_port 7002, append_to 2 0 0 0 1 noop_entry) ∷ [] }
    ensures a_request { said_after 2 (take 6 leads) ≡
        (at_port 7001, append_to 1 0 0 0 2 (noop_entry ++ put_entry 1)) ∷ (at_port 7002, append_to 2 0 0 0 2 (noop_entry ++ put_entry 1)) ∷ [] }
    ensures committed { said_after 4 leads ≡
        (at_port 7001, append_to 1 2 1 2 1 (put_entry 2)) ∷ answered 1 (1 ∷ 1 ∷ 97 ∷ 1 ∷ 0 ∷ 1 ∷ 120 ∷ 0 ∷ []) ∷ [] }
{}

/// Whose headings are in range, and which messages have bytes, and few.
#[tactic(auto, unfolding(wire_fields::specs::Bytes::number_bytes))]
pub fn worked_grammar()
    ensures may_say { MaySay kv_command kv_output settings }
    ensures not_without_a_name { MaySay kv_command kv_output (record settings { name = [] }) → ⊥ }
    ensures not_as_a_fourth_of_three { MaySay kv_command kv_output (record settings { me = 3 }) → ⊥ }
    ensures not_without_clients { MaySay kv_command kv_output (record settings { stack = stack.KvPb }) → ⊥ }
    ensures has_few_bytes { HasFewBytes (raft_message kv_command) granted }
    ensures has_none_in_term_0 { HasFewBytes (raft_message kv_command) (msg.Vote (record { term = 0; granted = true })) → ⊥ }
    ensures is_another { IsOtherNode settings (record settings { me = 1 }) 1 }
    ensures is_no_other { IsOtherNode settings settings 0 → ⊥ }
{}
