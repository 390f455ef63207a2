ghost use Rattle.std.specs.Prelude.{◌≡◌, ◌∷◌, ◌++◌, [], None, Some, codes, false, true};
ghost use Rattle.kv_machine.specs.declared.cmd.KvCmd.TheVariants as command;
ghost use Rattle.lock_table.specs.declared.cmd.TableCmd.TheVariants as table;
ghost use Rattle.vst_base.specs.declared.mirror.MirrorMsg.TheVariants as mirror;
ghost use Rattle.raft_types.specs.declared.msg.RaftMsg.TheVariants as message;
ghost use Rattle.vst_base.specs.declared.lock.LockMsg.TheVariants as lock;
ghost use Rattle.vst_base.specs.declared.pb_msg.PbMsg.TheVariants as backup;
ghost use Rattle.vst_base.specs.declared.retry.RetryMsg.TheVariants as retry;
ghost use Rattle.vst_base.specs.declared.stack.StackId.TheVariants as stack;
ghost use Rattle.vst_base.specs.declared.what.What.TheVariants as what;
ghost use Rattle.wire_codec.specs.Bodies.{AreMessagesOf, is_message};
ghost use Rattle.wire_codec.specs.Datagrams.{read_datagram, read_typed};
ghost use Rattle.wire_codec.specs.Examples.{acknowledges_data_1, applies_as_data_1, asks_as_data_1, asks_for_a_vote, asks_for_the_lock, before_greatest_index, bob_holds_l, cluster_name, entry_of_put, framed, grants_a_vote, greatest_index, l_and_bob, no_ops, of_kv, one, put_taken_by, puts_a, puts_a_as_packet_1, puts_x, read_raft, replies_x, requests_put, sends_after, sends_an_entry, zero_of_eight, zero_of_four};
ghost use Rattle.wire_codec.specs.Headings.{any_kind, heading_of, kind_field, stack_field};
ghost use Rattle.wire_codec.specs.declared.kind.Kind.TheVariants as kind;
ghost use Rattle.wire_messages.specs.ClientBytes.{client_reply, client_request};
ghost use Rattle.wire_messages.specs.EntryBytes.{entry, entry_of, old_entry};
ghost use Rattle.wire_messages.specs.KvBytes.{kv_command, kv_output};
ghost use Rattle.wire_messages.specs.PeerBytes.{backup_message, lock_message, mirror_message, numbered, retried};
ghost use Rattle.wire_messages.specs.RaftBytes.{append_of, raft_message};
ghost use Rattle.wire_messages.specs.ReadBytes.{read_message};
ghost use Rattle.wire_messages.specs.TableBytes.{table_command, table_output};
ghost use Rattle.wire_messages.specs.declared.client.Answer.TheVariants as answer;

/// Datagrams are read as their headings and messages. What stands behind a heading is not read with it.
#[tactic(auto, unfolding(wire_fields::specs::Bytes::number_bytes, wire_fields::specs::Bytes::number_in, wire_fields::specs::Bytes::has_bytes, wire_fields::specs::Bytes::read_number))]
pub fn worked_datagrams()
    ensures vote_request { read_raft (framed 5 0 1 0 asks_for_a_vote)
        ≡ Some (of_kv kind.Peer 1 0, message.RequestVote (record { term = 1; last_index = 0; last_term = 0 })) }
    ensures vote { read_raft (framed 5 0 0 1 grants_a_vote)
        ≡ Some (of_kv kind.Peer 0 1, message.Vote (record { term = 1; granted = true })) }
    ensures lock { read_typed (numbered lock_message) (framed 2 0 1 0 asks_for_the_lock)
        ≡ Some (heading_of stack.LockSeq kind.Peer 1 0 cluster_name, record { number = 0; inner = lock.Lock }) }
    ensures mirror { read_typed mirror_message (framed 8 0 1 0 puts_a)
        ≡ Some (heading_of stack.Mirror kind.Peer 1 0 cluster_name, mirror.Item (codes "a")) }
    ensures mirror_fifo { read_typed (numbered mirror_message) (framed 9 0 1 0 puts_a_as_packet_1)
        ≡ Some (heading_of stack.MirrorFifo kind.Peer 1 0 cluster_name, record { number = 1; inner = mirror.Item (codes "a") }) }
    ensures lock_seq_retry { read_typed (retried (numbered lock_message)) (framed 10 0 1 0 asks_as_data_1)
        ≡ Some (heading_of stack.LockSeqRetry kind.Peer 1 0 cluster_name, retry.Data 1 (record { number = 0; inner = lock.Lock })) }
    ensures kv_pb_seq_retry { read_typed (retried (numbered (backup_message kv_command))) (framed 11 0 1 0 acknowledges_data_1)
        ≡ Some (heading_of stack.KvPbSeqRetry kind.Peer 1 0 cluster_name, retry.Ack 1) }
    ensures kv_pb_seq_retry_data { read_typed (retried (numbered (backup_message kv_command))) (framed 11 0 0 1 applies_as_data_1) ≡ Some (
      heading_of stack.KvPbSeqRetry kind.Peer 0 1 cluster_name,
      retry.Data 1 (record { number = 0; inner = backup.Apply (command.Put (codes "a") (codes "x")) }),
    ) }
    ensures request { read_typed (client_request kv_command) (framed 5 1 0 0 requests_put)
        ≡ Some (of_kv kind.Request 0 0, record { request = 1; cmd = command.Put (codes "a") (codes "x") }) }
    ensures reply { read_typed (client_reply kv_output) (framed 5 2 0 0 replies_x) ≡ Some (
      of_kv kind.Reply 0 0,
      record {
        request = 1;
        answer = answer.Reply (record { key = codes "a"; after = Some (codes "x"); before = None });
      },
    ) }
    ensures entries { read_raft (framed 5 0 0 1 sends_an_entry) ≡ Some (
      of_kv kind.Peer 0 1,
      message.Append (append_of 1 0 0 0 (entry_of 1 (what.Request 7 1 0 (command.Put (codes "a") (codes "x"))) ∷ [])),
    ) }
    ensures no_message_behind { read_datagram (framed 5 0 1 0 (9 ∷ [])) ≡ Some (of_kv kind.Peer 1 0, 9 ∷ []) }
    ensures nothing_behind { read_datagram (framed 5 1 254 8 []) ≡ Some (of_kv kind.Request 254 8, []) }
{}

/// The messages of each stack and kind, by their format.
pub fn worked_stacks()
    ensures lock { AreMessagesOf stack.Lock kind.Peer lock_message }
    ensures lock_seq { AreMessagesOf stack.LockSeq kind.Peer (numbered lock_message) }
    ensures kv_pb { AreMessagesOf stack.KvPb kind.Peer (backup_message kv_command) }
    ensures kv_pb_seq { AreMessagesOf stack.KvPbSeq kind.Peer (numbered (backup_message kv_command)) }
    ensures table_pb_seq { AreMessagesOf stack.TablePbSeq kind.Peer (numbered (backup_message table_command)) }
    ensures mirror { AreMessagesOf stack.Mirror kind.Peer mirror_message }
    ensures mirror_fifo { AreMessagesOf stack.MirrorFifo kind.Peer (numbered mirror_message) }
    ensures lock_seq_retry { AreMessagesOf stack.LockSeqRetry kind.Peer (retried (numbered lock_message)) }
    ensures kv_pb_seq_retry { AreMessagesOf stack.KvPbSeqRetry kind.Peer (retried (numbered (backup_message kv_command))) }
    ensures kv_raft_read { AreMessagesOf stack.KvRaftRead kind.Peer (read_message kv_command) }
    ensures table_raft_read { AreMessagesOf stack.TableRaftRead kind.Peer (read_message table_command) }
    ensures none_asked_of_nodes_with_reads { AreMessagesOf stack.KvRaftRead kind.Request (client_request kv_command) → ⊥ }
    ensures kv_raft { AreMessagesOf stack.KvRaft kind.Peer (raft_message kv_command) }
    ensures kv_requests { AreMessagesOf stack.KvRaft kind.Request (client_request kv_command) }
    ensures kv_replies { AreMessagesOf stack.KvRaft kind.Reply (client_reply kv_output) }
    ensures table_raft { AreMessagesOf stack.TableRaft kind.Peer (raft_message table_command) }
    ensures table_requests { AreMessagesOf stack.TableRaft kind.Request (client_request table_command) }
    ensures table_replies { AreMessagesOf stack.TableRaft kind.Reply (client_reply table_output) }
    ensures not_of_the_other_machine { AreMessagesOf stack.TableRaft kind.Request (client_request kv_command) → ⊥ }
    ensures none_asked_of_primary_backup { AreMessagesOf stack.KvPb kind.Request (client_request kv_command) → ⊥ }
{}

/// What the bytes of messages say.
#[tactic(auto, unfolding(wire_fields::specs::Bytes::number_bytes, wire_fields::specs::Bytes::number_in, wire_fields::specs::Bytes::has_bytes, wire_fields::specs::Bytes::read_number))]
pub fn worked_messages()
    ensures vote_request { (raft_message kv_command).read asks_for_a_vote
        ≡ Some (message.RequestVote (record { term = 1; last_index = 0; last_term = 0 }), []) }
    ensures vote { (raft_message kv_command).read grants_a_vote ≡ Some (message.Vote (record { term = 1; granted = true }), []) }
    ensures lock { (numbered lock_message).read asks_for_the_lock ≡ Some (record { number = 0; inner = lock.Lock }, []) }
    ensures request { (client_request kv_command).read requests_put
        ≡ Some (record { request = 1; cmd = command.Put (codes "a") (codes "x") }, []) }
    ensures reply { (client_reply kv_output).read replies_x
        ≡ Some (record { request = 1; answer = answer.Reply (record { key = codes "a"; after = Some (codes "x"); before = None }) }, []) }
    ensures entry { (entry kv_command).read entry_of_put
        ≡ Some (record { term = 1; what = what.Request 7 1 0 (command.Put (codes "a") (codes "x")) }, []) }
    ensures no_op { (entry kv_command).read (one ++ (0 ∷ [])) ≡ Some (record { term = 1; what = what.Noop }, []) }
    ensures what_stands_after_a_no_op { (entry kv_command).read (one ++ (0 ∷ 9 ∷ []))
        ≡ Some (record { term = 1; what = what.Noop }, 9 ∷ []) }
    ensures no_old_no_op { (old_entry kv_command).read (one ++ (0 ∷ [])) ≡ None }
{}

/// The bytes of each command of the key-value machine, and of its outputs.
#[tactic(auto, unfolding(wire_fields::specs::Bytes::number_bytes, wire_fields::specs::Bytes::number_in, wire_fields::specs::Bytes::has_bytes, wire_fields::specs::Bytes::read_number))]
pub fn worked_commands()
    ensures get { kv_command.spell (command.Get (codes "a")) ≡ 1 ∷ 1 ∷ 97 ∷ [] }
    ensures put { kv_command.spell (command.Put (codes "a") (codes "x")) ≡ 2 ∷ 1 ∷ 97 ∷ 0 ∷ 1 ∷ 120 ∷ [] }
    ensures del { kv_command.spell (command.Del (codes "a")) ≡ 3 ∷ 1 ∷ 97 ∷ [] }
    ensures cas { kv_command.spell (command.Cas (codes "a") (Some (codes "y")) (codes "x"))
        ≡ 4 ∷ 1 ∷ 97 ∷ 1 ∷ 0 ∷ 1 ∷ 121 ∷ 0 ∷ 1 ∷ 120 ∷ [] }
    ensures cas_of_none { kv_command.spell (command.Cas (codes "a") None (codes "x")) ≡ 4 ∷ 1 ∷ 97 ∷ 0 ∷ 0 ∷ 1 ∷ 120 ∷ [] }
    ensures cad { kv_command.spell (command.Cad (codes "a") (codes "x")) ≡ 5 ∷ 1 ∷ 97 ∷ 0 ∷ 1 ∷ 120 ∷ [] }
    ensures reads_cad { kv_command.read (5 ∷ 1 ∷ 97 ∷ 0 ∷ 1 ∷ 120 ∷ []) ≡ Some (command.Cad (codes "a") (codes "x"), []) }
    ensures no_command_0 { kv_command.read (0 ∷ 1 ∷ 97 ∷ 0 ∷ 1 ∷ 120 ∷ []) ≡ None }
    ensures no_command_6 { kv_command.read (6 ∷ 1 ∷ 97 ∷ 0 ∷ 1 ∷ 120 ∷ []) ≡ None }
    ensures was_set { kv_output.spell (record { key = codes "a"; after = Some (codes "x"); before = None })
        ≡ 1 ∷ 97 ∷ 1 ∷ 0 ∷ 1 ∷ 120 ∷ 0 ∷ [] }
    ensures was_deleted { kv_output.spell (record { key = codes "a"; after = None; before = Some (codes "x") })
        ≡ 1 ∷ 97 ∷ 0 ∷ 1 ∷ 0 ∷ 1 ∷ 120 ∷ [] }
{}

/// The bytes of each command of the table of named locks, and of its outputs.
#[tactic(auto, unfolding(wire_fields::specs::Bytes::number_bytes, wire_fields::specs::Bytes::number_in, wire_fields::specs::Bytes::has_bytes, wire_fields::specs::Bytes::read_number))]
pub fn worked_table_commands()
    ensures acquire { table_command.spell (table.Acquire (codes "l") (codes "bob")) ≡ 1 ∷ l_and_bob }
    ensures release { table_command.spell (table.Release (codes "l") (codes "bob")) ≡ 2 ∷ l_and_bob }
    ensures holder { table_command.spell (table.Holder (codes "l")) ≡ 3 ∷ 1 ∷ 108 ∷ [] }
    ensures reads_acquire { table_command.read (1 ∷ l_and_bob) ≡ Some (table.Acquire (codes "l") (codes "bob"), []) }
    ensures reads_release { table_command.read (2 ∷ l_and_bob) ≡ Some (table.Release (codes "l") (codes "bob"), []) }
    ensures no_command_0 { table_command.read (0 ∷ l_and_bob) ≡ None }
    ensures no_command_4 { table_command.read (4 ∷ l_and_bob) ≡ None }
    ensures is_held { table_output.spell (record { name = codes "l"; holder = Some (codes "bob"); yes = true }) ≡ bob_holds_l }
    ensures is_free { table_output.spell (record { name = codes "l"; holder = None; yes = false }) ≡ 1 ∷ 108 ∷ 0 ∷ 0 ∷ [] }
    ensures reads_held { table_output.read bob_holds_l ≡ Some (record { name = codes "l"; holder = Some (codes "bob"); yes = true }, []) }
    ensures no_answer_2 { table_output.read (1 ∷ 108 ∷ 0 ∷ 2 ∷ []) ≡ None }
{}

/// The bytes of each message of the lock server, of primary-backup, of sequence numbering and of sending again.
#[tactic(auto, unfolding(wire_fields::specs::Bytes::number_bytes, wire_fields::specs::Bytes::number_in, wire_fields::specs::Bytes::has_bytes, wire_fields::specs::Bytes::read_number))]
pub fn worked_packets()
    ensures asks { lock_message.spell lock.Lock ≡ 1 ∷ [] }
    ensures gives_back { lock_message.spell lock.Unlock ≡ 2 ∷ [] }
    ensures hands_over { lock_message.spell lock.Locked ≡ 3 ∷ [] }
    ensures no_lock_0 { lock_message.read (0 ∷ []) ≡ None }
    ensures no_lock_4 { lock_message.read (4 ∷ []) ≡ None }
    ensures apply { (backup_message kv_command).spell (backup.Apply (command.Put (codes "a") (codes "x"))) ≡ 1 ∷ puts_x }
    ensures ack { (backup_message kv_command).spell backup.Ack ≡ 2 ∷ [] }
    ensures reads_apply { (backup_message kv_command).read (1 ∷ puts_x) ≡ Some (backup.Apply (command.Put (codes "a") (codes "x")), []) }
    ensures reads_ack { (backup_message kv_command).read (2 ∷ []) ≡ Some (backup.Ack, []) }
    ensures no_backup_0 { (backup_message kv_command).read (0 ∷ []) ≡ None }
    ensures no_backup_3 { (backup_message kv_command).read (3 ∷ []) ≡ None }
    ensures numbered { (numbered lock_message).spell (record { number = 1; inner = lock.Locked }) ≡ one ++ (3 ∷ []) }
    ensures data { (retried (numbered (backup_message kv_command))).spell (retry.Data 1 (record {
      number = 0;
      inner = backup.Apply (command.Put (codes "a") (codes "x"));
    })) ≡ applies_as_data_1 }
{}

/// The bytes of each message between the nodes of a Raft cluster, and of entries, up to the ends of their ranges.
#[tactic(auto, unfolding(wire_fields::specs::Bytes::number_bytes, wire_fields::specs::Bytes::number_in, wire_fields::specs::Bytes::has_bytes, wire_fields::specs::Bytes::read_number))]
pub fn worked_cluster_messages()
    ensures asks_for_a_vote { (raft_message kv_command).spell (message.RequestVote (record { term = 1; last_index = 0; last_term = 0 }))
        ≡ asks_for_a_vote }
    ensures grants_a_vote { (raft_message kv_command).spell (message.Vote (record { term = 1; granted = true })) ≡ grants_a_vote }
    ensures refuses_a_vote { (raft_message kv_command).spell (message.Vote (record { term = 1; granted = false })) ≡ 2 ∷ (one ++ (0 ∷ [])) }
    ensures sends_nothing { (raft_message kv_command).spell (message.Append (append_of 1 0 0 0 [])) ≡ sends_after zero_of_four 0 [] }
    ensures appended { (raft_message kv_command).spell (message.Appended (record { term = 1; ok = true; index = 1000000 }))
        ≡ 4 ∷ (one ++ (1 ∷ greatest_index)) }
    ensures not_appended { (raft_message kv_command).spell (message.Appended (record { term = 1; ok = false; index = 0 }))
        ≡ 4 ∷ (one ++ (0 ∷ zero_of_four)) }
    ensures reads_appended { (raft_message kv_command).read (4 ∷ (one ++ (1 ∷ greatest_index)))
        ≡ Some (message.Appended (record { term = 1; ok = true; index = 1000000 }), []) }
    ensures no_message_0 { (raft_message kv_command).read (0 ∷ (one ++ (1 ∷ greatest_index))) ≡ None }
    ensures no_message_5 { (raft_message kv_command).read (5 ∷ (one ++ (1 ∷ greatest_index))) ≡ None }
    ensures up_to_the_greatest { (raft_message kv_command).read (sends_after before_greatest_index 1 (no_ops 1))
        ≡ Some (message.Append (append_of 1 999999 0 0 (entry_of 1 what.Noop ∷ [])), []) }
    ensures past_the_greatest { (raft_message kv_command).read (sends_after greatest_index 1 (no_ops 1)) ≡ None }
    ensures eight_entries { is_message stack.KvRaft kind.Peer (sends_after zero_of_four 8 (no_ops 8)) ≡ true }
    ensures nine_entries { is_message stack.KvRaft kind.Peer (sends_after zero_of_four 9 (no_ops 9)) ≡ false }
    ensures request { (entry kv_command).spell (entry_of 1 (what.Request 7 1 8 (command.Put (codes "a") (codes "x")))) ≡ put_taken_by 8 }
    ensures no_op { (entry kv_command).spell (entry_of 1 what.Noop) ≡ no_ops 1 }
    ensures taken_by_the_last_node { (entry kv_command).read (put_taken_by 8)
        ≡ Some (entry_of 1 (what.Request 7 1 8 (command.Put (codes "a") (codes "x"))), []) }
    ensures taken_by_no_node { (entry kv_command).read (put_taken_by 9) ≡ None }
    ensures no_entry_2 { (entry kv_command).read (one ++ (2 ∷ [])) ≡ None }
{}

/// The bytes of what clients ask and are told.
#[tactic(auto, unfolding(wire_fields::specs::Bytes::number_bytes, wire_fields::specs::Bytes::number_in, wire_fields::specs::Bytes::has_bytes, wire_fields::specs::Bytes::read_number))]
pub fn worked_answers()
    ensures asks { (client_request kv_command).spell (record { request = 1; cmd = command.Put (codes "a") (codes "x") }) ≡ requests_put }
    ensures reply { (client_reply kv_output).spell (record {
      request = 1;
      answer = answer.Reply (record { key = codes "a"; after = Some (codes "x"); before = None });
    }) ≡ replies_x }
    ensures not_the_leader { (client_reply kv_output).spell (record { request = 1; answer = answer.NotLeader }) ≡ one ++ (2 ∷ []) }
    ensures full { (client_reply kv_output).spell (record { request = 1; answer = answer.Full }) ≡ one ++ (3 ∷ []) }
    ensures reads_full { (client_reply kv_output).read (one ++ (3 ∷ [])) ≡ Some (record { request = 1; answer = answer.Full }, []) }
    ensures no_answer_0 { (client_reply kv_output).read (one ++ (0 ∷ [])) ≡ None }
    ensures no_answer_4 { (client_reply kv_output).read (one ++ (4 ∷ [])) ≡ None }
    ensures of_a_table { is_message stack.TableRaft kind.Reply (one ++ (1 ∷ bob_holds_l)) ≡ true }
    ensures not_of_the_other_machine { is_message stack.KvRaft kind.Reply (one ++ (1 ∷ bob_holds_l)) ≡ false }
    ensures asked_of_a_table { is_message stack.TableRaft kind.Request (one ++ (1 ∷ l_and_bob)) ≡ true }
    ensures not_asked_of_the_other_machine { is_message stack.KvRaft kind.Request (one ++ (1 ∷ l_and_bob)) ≡ false }
    ensures no_reply_of_primary_backup { is_message stack.KvPb kind.Reply (one ++ (2 ∷ [])) ≡ false }
{}

/// The bytes of stacks and of kinds in a heading.
#[tactic(auto, unfolding(wire_fields::specs::Bytes::number_bytes, wire_fields::specs::Bytes::number_in, wire_fields::specs::Bytes::has_bytes, wire_fields::specs::Bytes::read_number))]
pub fn worked_headings()
    ensures lock { stack_field.spell stack.Lock ≡ 1 ∷ [] }
    ensures lock_seq { stack_field.spell stack.LockSeq ≡ 2 ∷ [] }
    ensures kv_pb { stack_field.spell stack.KvPb ≡ 3 ∷ [] }
    ensures kv_pb_seq { stack_field.spell stack.KvPbSeq ≡ 4 ∷ [] }
    ensures kv_raft { stack_field.spell stack.KvRaft ≡ 5 ∷ [] }
    ensures table_pb_seq { stack_field.spell stack.TablePbSeq ≡ 6 ∷ [] }
    ensures table_raft { stack_field.spell stack.TableRaft ≡ 7 ∷ [] }
    ensures mirror { stack_field.spell stack.Mirror ≡ 8 ∷ [] }
    ensures mirror_fifo { stack_field.spell stack.MirrorFifo ≡ 9 ∷ [] }
    ensures lock_seq_retry { stack_field.spell stack.LockSeqRetry ≡ 10 ∷ [] }
    ensures kv_pb_seq_retry { stack_field.spell stack.KvPbSeqRetry ≡ 11 ∷ [] }
    ensures kv_raft_read { stack_field.spell stack.KvRaftRead ≡ 13 ∷ [] }
    ensures table_raft_read { stack_field.spell stack.TableRaftRead ≡ 14 ∷ [] }
    ensures a_machine_alone_has_none { (stack_field.Fits stack.Kv → ⊥) × (stack_field.Fits stack.Table → ⊥) }
    ensures no_stack_0 { stack_field.read (0 ∷ []) ≡ None }
    ensures no_stack_12 { stack_field.read (12 ∷ []) ≡ None }
    ensures peer { any_kind.spell kind.Peer ≡ 0 ∷ [] }
    ensures request { any_kind.spell kind.Request ≡ 1 ∷ [] }
    ensures reply { any_kind.spell kind.Reply ≡ 2 ∷ [] }
    ensures no_kind_3 { any_kind.read (3 ∷ []) ≡ None }
    ensures of_a_cluster { (kind_field stack.TableRaft).read (1 ∷ []) ≡ Some (kind.Request, []) }
    ensures not_of_primary_backup { (kind_field stack.KvPbSeq).read (2 ∷ []) ≡ None }
    ensures not_of_a_mirror { (kind_field stack.Mirror).read (1 ∷ []) ≡ None }
{}

/// What is no datagram.
#[tactic(auto, unfolding(wire_fields::specs::Bytes::number_bytes, wire_fields::specs::Bytes::number_in, wire_fields::specs::Bytes::has_bytes, wire_fields::specs::Bytes::read_number))]
pub fn refused_datagrams()
    ensures no_bytes { read_datagram [] ≡ None }
    ensures cut_short { read_raft (framed 5 0 1 0 (1 ∷ (one ++ (zero_of_four ++ (zero_of_four ++ (0 ∷ 0 ∷ 0 ∷ [])))))) ≡ None }
    ensures a_byte_after { read_raft (framed 5 0 1 0 (asks_for_a_vote ++ (0 ∷ []))) ≡ None }
    ensures another_letter { read_datagram (87 ∷ 2 ∷ 5 ∷ 0 ∷ 1 ∷ 0 ∷ (cluster_name ++ asks_for_a_vote)) ≡ None }
    ensures version_3 { read_datagram (86 ∷ 3 ∷ 5 ∷ 0 ∷ 1 ∷ 0 ∷ (cluster_name ++ asks_for_a_vote)) ≡ None }
    ensures version_1 { read_datagram (86 ∷ 1 ∷ 5 ∷ 0 ∷ 1 ∷ 0 ∷ asks_for_a_vote) ≡ None }
    ensures another_kind { read_datagram (framed 5 3 1 0 asks_for_a_vote) ≡ None }
    ensures term_0 { read_raft (framed 5 0 1 0 (1 ∷ (zero_of_eight ++ (zero_of_four ++ zero_of_eight)))) ≡ None }
    ensures term_past_the_greatest { read_raft (framed 5 0 1 0 (1 ∷ 128 ∷ 0 ∷ 0 ∷ 0 ∷ 0 ∷ 0 ∷ 0 ∷ 0 ∷ (zero_of_four ++ zero_of_eight)))
        ≡ None }
    ensures index_past_the_last { read_raft (framed 5 0 1 0 (1 ∷ (one ++ (0 ∷ 15 ∷ 66 ∷ 65 ∷ zero_of_eight)))) ≡ None }
    ensures a_second_yes { read_raft (framed 5 0 0 1 (2 ∷ (one ++ (2 ∷ [])))) ≡ None }
    ensures a_request_for_the_lock { read_datagram (framed 2 1 1 0 asks_for_the_lock) ≡ None }
    ensures a_tenth_node { read_datagram (framed 5 0 9 0 asks_for_a_vote) ≡ None }
    ensures a_client_past_the_last { read_datagram (framed 5 1 255 0 requests_put) ≡ None }
    ensures a_request_for_a_mirror { read_datagram (framed 9 1 1 0 puts_a_as_packet_1) ≡ None }
    ensures a_request_where_packets_are_lost { read_datagram (framed 10 1 1 0 asks_as_data_1) ≡ None }
    ensures no_stack_of_byte_12 { read_datagram (framed 12 0 1 0 asks_for_a_vote) ≡ None }
    ensures a_fifteenth_stack { read_datagram (framed 15 0 1 0 asks_for_a_vote) ≡ None }
    ensures a_request_where_reads_take_no_entry { read_datagram (framed 13 1 1 0 requests_put) ≡ None }
    ensures a_machine_alone { read_datagram (framed 0 0 1 0 asks_for_a_vote) ≡ None }
{}
