ghost use Rattle.std.specs.Prelude.{◌≡◌, [], ◌∷◌, ◌++◌, None, Some, true};
ghost use Rattle.datagram_laws.specs.DatagramLaws.{HasEventBytes, IsKeptInBytes};
ghost use Rattle.datagram_laws.specs.Examples.{from_1, heard_by, is_of_output, is_of_packet, no_leader, node_1, node_of_another, of_tables, read, vote_for_0, was_sent_by_1};
ghost use Rattle.datagram_laws.specs.Origins.{AreOfOneCluster};
ghost use Rattle.node_run.specs.Examples.{asked_put, datagram, granted, kept_as, number_of_eight, settings, vote, votes};
ghost use Rattle.node_run.specs.Saying.{MaySay};
ghost use Rattle.node_run.specs.declared.event.Event.TheVariants.{Peer, Tick};
ghost use Rattle.raft_types.specs.declared.client.RaftOut.TheVariants.{Full, NotLeader};
ghost use Rattle.raft_types.specs.declared.msg.RaftMsg.TheVariants as msg;
ghost use Rattle.wire_messages.specs.KvBytes.{kv_command};
ghost use Rattle.wire_messages.specs.TableBytes.{table_command, table_output};

/// Of which packet or output of node 1 a datagram is.
#[tactic(auto, unfolding(wire_fields::specs::Bytes::number_bytes))]
pub fn worked_origins()
    ensures of_a_vote { is_of_packet node_1 7000 vote_for_0 (0, granted) }
    ensures not_to_another_node { is_of_packet node_1 7000 vote_for_0 (2, granted) → ⊥ }
    ensures not_to_another_address { is_of_packet node_1 7002 vote_for_0 (0, granted) → ⊥ }
    ensures not_of_another_node { is_of_packet settings 7000 vote_for_0 (0, granted) → ⊥ }
    ensures not_to_a_fourth { is_of_packet node_1 7000 vote_for_0 (3, granted) → ⊥ }
    ensures of_a_refusal { is_of_output node_1 7100 no_leader (NotLeader 0 7) }
    ensures not_of_another_request { is_of_output node_1 7100 no_leader (NotLeader 0 8) → ⊥ }
    ensures not_of_another_refusal { is_of_output node_1 7100 no_leader (Full 0 7) → ⊥ }
    ensures of_one_cluster { AreOfOneCluster settings node_1 }
    ensures of_another_cluster { AreOfOneCluster settings node_of_another → ⊥ }
{}

/// What nodes take of the vote of node 1 for node 0, and of what is not quite this.
#[tactic(auto, unfolding(wire_fields::specs::Bytes::number_bytes, wire_fields::specs::Bytes::number_in, wire_fields::specs::Bytes::has_bytes, wire_fields::specs::Bytes::read_number))]
pub fn worked_hearing()
    ensures a_vote { heard_by settings 7001 vote_for_0 ≡ Some vote }
    ensures from_another_address { heard_by settings 7002 vote_for_0 ≡ None }
    ensures by_another_node { heard_by (record settings { me = 2 }) 7001 vote_for_0 ≡ None }
    ensures by_itself { heard_by node_1 7001 vote_for_0 ≡ None }
    ensures in_another_cluster { heard_by node_of_another 7001 vote_for_0 ≡ None }
    ensures of_another_sender { heard_by settings 7001 (datagram 5 0 2 0 (votes (number_of_eight 1) 1)) ≡ None }
    ensures mutated { heard_by settings 7001 (datagram 5 0 1 0 (votes (number_of_eight 1) 2)) ≡ None }
    ensures a_byte_more { heard_by settings 7001 (vote_for_0 ++ 0 ∷ []) ≡ None }
    ensures a_reply { heard_by settings 7001 no_leader ≡ None }
    ensures was_sent { was_sent_by_1 ((2, granted) ∷ (0, granted) ∷ []) 7001 vote }
    ensures was_not_sent { was_sent_by_1 ((2, granted) ∷ []) 7001 vote → ⊥ }
    ensures is_no_message { was_sent_by_1 ((0, granted) ∷ []) 7001 Tick → ⊥ }
    ensures not_from_there { was_sent_by_1 ((0, granted) ∷ []) 7002 vote → ⊥ }
{}

/// What client 0 is told by the bytes of a reply, and of what is not quite this.
#[tactic(auto, unfolding(wire_fields::specs::Bytes::number_bytes, wire_fields::specs::Bytes::number_in, wire_fields::specs::Bytes::has_bytes, wire_fields::specs::Bytes::read_number))]
pub fn worked_reading()
    ensures a_refusal { read no_leader ≡ Some (from_1, NotLeader 0 7) }
    ensures another_refusal { read (datagram 5 2 1 0 (number_of_eight 7 ++ 3 ∷ [])) ≡ Some (from_1, Full 0 7) }
    ensures mutated { read (datagram 5 2 1 0 (number_of_eight 7 ++ 4 ∷ [])) ≡ None }
    ensures of_another_kind { read (datagram 5 1 1 0 (number_of_eight 7 ++ 2 ∷ [])) ≡ None }
    ensures a_message { read vote_for_0 ≡ None }
    ensures of_no_bytes { read [] ≡ None }
{}

/// Which events have bytes, what a node may have kept, and that nodes of the stack with tables may say what they send too.
#[tactic(auto, unfolding(wire_fields::specs::Bytes::number_bytes))]
pub fn worked_bytes()
    ensures a_message { HasEventBytes kv_command settings vote }
    ensures of_itself { HasEventBytes kv_command settings (Peer 0 granted) → ⊥ }
    ensures of_a_fourth { HasEventBytes kv_command settings (Peer 3 granted) → ⊥ }
    ensures in_term_0 { HasEventBytes kv_command settings (Peer 1 (msg.Vote (record { term = 0; granted = true }))) → ⊥ }
    ensures a_request { HasEventBytes kv_command settings asked_put }
    ensures kept { IsKeptInBytes kv_command settings (kept_as 1 (Some 2)) }
    ensures not_for_a_fourth { IsKeptInBytes kv_command settings (kept_as 1 (Some 3)) → ⊥ }
    ensures of_tables { MaySay table_command table_output of_tables }
{}
