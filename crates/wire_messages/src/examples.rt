ghost use Rattle.std.specs.Prelude.{◌≡◌, ◌∷◌, ◌++◌, [], None, Some, codes, true};
ghost use Rattle.kv_machine.specs.declared.cmd.KvCmd.TheVariants as command;
ghost use Rattle.lock_table.specs.declared.cmd.TableCmd.TheVariants as table;
ghost use Rattle.vst_base.specs.declared.mirror.MirrorMsg.TheVariants as mirror;
ghost use Rattle.raft_types.specs.declared.limits.TheConstants.{MAX_ROUND};
ghost use Rattle.raft_types.specs.declared.msg.RaftMsg.TheVariants as message;
ghost use Rattle.vst_base.specs.declared.retry.RetryMsg.TheVariants as retry;
ghost use Rattle.vst_base.specs.declared.what.What.TheVariants as what;
ghost use Rattle.wire_fields.specs.Fields.{key};
ghost use Rattle.wire_fields.specs.Formats.{listed};
ghost use Rattle.wire_messages.specs.EntryBytes.{entry, entry_of, old_entry};
ghost use Rattle.wire_messages.specs.Examples.{greatest, one, past_greatest, put_asked, zero_of_four, zero_of_eight};
ghost use Rattle.wire_messages.specs.KvBytes.{kv_command};
ghost use Rattle.wire_messages.specs.PeerBytes.{mirror_message, numbered, retried};
ghost use Rattle.wire_messages.specs.RaftBytes.{append_of, raft_message};
ghost use Rattle.wire_messages.specs.ReadBytes.{read_message, with_round};
ghost use Rattle.wire_messages.specs.TableBytes.{table_command};
ghost use Rattle.wire_messages.specs.Wires.{read_whole};

/// Entries as version 1 wrote them and as they are now: the byte that says what one holds is new.
#[tactic(auto, unfolding(wire_fields::specs::Bytes::number_bytes, wire_fields::specs::Bytes::number_in, wire_fields::specs::Bytes::has_bytes, wire_fields::specs::Bytes::read_number))]
pub fn worked_entries()
    ensures old { (old_entry kv_command).spell (entry_of 1 (what.Request 7 1 0 (command.Put (codes "a") (codes "x")))) ≡ one ++ put_asked }
    ensures reads_old { (old_entry kv_command).read (one ++ put_asked)
        ≡ Some (entry_of 1 (what.Request 7 1 0 (command.Put (codes "a") (codes "x"))), []) }
    ensures no_old_no_op { (old_entry kv_command).Fits (entry_of 1 what.Noop) → ⊥ }
    ensures new { (entry kv_command).spell (entry_of 1 (what.Request 7 1 0 (command.Put (codes "a") (codes "x"))))
        ≡ one ++ (1 ∷ put_asked) }
    ensures no_op { (entry kv_command).spell (entry_of 1 what.Noop) ≡ one ++ (0 ∷ []) }
    ensures sent { (raft_message kv_command).spell (message.Append (append_of 1 0 0 0 (entry_of 1 what.Noop ∷ [])))
        ≡ 3 ∷ (one ++ (zero_of_four ++ (zero_of_eight ++ (zero_of_four ++ (1 ∷ (one ++ (0 ∷ []))))))) }
{}

/// Values one after the other, and a value that all of the bytes are.
#[tactic(auto, unfolding(wire_fields::specs::Bytes::number_bytes, wire_fields::specs::Bytes::number_in, wire_fields::specs::Bytes::has_bytes, wire_fields::specs::Bytes::read_number))]
pub fn worked_lists()
    ensures two_keys { (listed key 2).read (1 ∷ 97 ∷ 1 ∷ 98 ∷ 9 ∷ []) ≡ Some (codes "a" ∷ codes "b" ∷ [], 9 ∷ []) }
    ensures one_key_of_two { (listed key 2).read (1 ∷ 97 ∷ []) ≡ None }
    ensures whole { read_whole table_command (3 ∷ 1 ∷ 108 ∷ []) ≡ Some (table.Holder (codes "l")) }
    ensures a_byte_after { read_whole table_command (3 ∷ 1 ∷ 108 ∷ 0 ∷ []) ≡ None }
{}

/// A message of the mirror: the byte 1, and a value, alone and behind its number.
#[tactic(auto, unfolding(wire_fields::specs::Bytes::number_bytes, wire_fields::specs::Bytes::number_in, wire_fields::specs::Bytes::has_bytes, wire_fields::specs::Bytes::read_number))]
pub fn worked_items()
    ensures item { mirror_message.spell (mirror.Item (codes "a")) ≡ 1 ∷ 0 ∷ 1 ∷ 97 ∷ [] }
    ensures reads_item { mirror_message.read (1 ∷ 0 ∷ 1 ∷ 97 ∷ []) ≡ Some (mirror.Item (codes "a"), []) }
    ensures no_item_0 { mirror_message.read (0 ∷ 0 ∷ 1 ∷ 97 ∷ []) ≡ None }
    ensures no_item_2 { mirror_message.read (2 ∷ 0 ∷ 1 ∷ 97 ∷ []) ≡ None }
    ensures no_value { mirror_message.read (1 ∷ 0 ∷ 0 ∷ []) ≡ None }
    ensures a_byte_after { read_whole mirror_message (1 ∷ 0 ∷ 1 ∷ 97 ∷ 0 ∷ []) ≡ None }
    ensures numbered { (numbered mirror_message).spell (record { number = 1; inner = mirror.Item (codes "a") })
        ≡ one ++ (1 ∷ 0 ∷ 1 ∷ 97 ∷ []) }
{}

/// A message that is sent until it is acknowledged: the byte 1, its number and the message within, or the byte 2 and the number that is
/// acknowledged.
#[tactic(auto, unfolding(wire_fields::specs::Bytes::number_bytes, wire_fields::specs::Bytes::number_in, wire_fields::specs::Bytes::has_bytes, wire_fields::specs::Bytes::read_number))]
pub fn worked_retries()
    ensures data { (retried mirror_message).spell (retry.Data 1 (mirror.Item (codes "a"))) ≡ 1 ∷ (one ++ (1 ∷ 0 ∷ 1 ∷ 97 ∷ [])) }
    ensures reads_data { (retried mirror_message).read (1 ∷ (one ++ (1 ∷ 0 ∷ 1 ∷ 97 ∷ []))) ≡ Some (retry.Data 1 (mirror.Item (codes "a")), []) }
    ensures ack { (retried mirror_message).spell (retry.Ack 1) ≡ 2 ∷ one }
    ensures reads_ack { (retried mirror_message).read (2 ∷ one) ≡ Some (retry.Ack 1, []) }
    ensures no_message_0 { (retried mirror_message).read (0 ∷ one) ≡ None }
    ensures no_message_3 { (retried mirror_message).read (3 ∷ one) ≡ None }
    ensures no_message_within { (retried mirror_message).read (1 ∷ one) ≡ None }
    ensures no_number { (retried mirror_message).read (2 ∷ zero_of_four) ≡ None }
    ensures a_message_after_an_acknowledgement { read_whole (retried mirror_message) (2 ∷ (one ++ (1 ∷ 0 ∷ 1 ∷ 97 ∷ []))) ≡ None }
    ensures of_numbered { (retried (numbered mirror_message)).spell (retry.Data 1 (record { number = 1; inner = mirror.Item (codes "a") }))
        ≡ 1 ∷ (one ++ (one ++ (1 ∷ 0 ∷ 1 ∷ 97 ∷ []))) }
{}

/// Messages with a round: a leader's stands right before the number of its entries, an answer's after all the rest, and a vote has none.
#[tactic(auto, unfolding(wire_fields::specs::Bytes::number_bytes, wire_fields::specs::Bytes::number_in, wire_fields::specs::Bytes::has_bytes, wire_fields::specs::Bytes::read_number))]
pub fn worked_rounds()
    ensures sent { (read_message kv_command).spell (with_round (message.Append (append_of 1 0 0 0 (entry_of 1 what.Noop ∷ []))) 1)
        ≡ 3 ∷ (one ++ (zero_of_four ++ (zero_of_eight ++ (zero_of_four ++ (one ++ (1 ∷ (one ++ (0 ∷ [])))))))) }
    ensures reads_sent { (read_message kv_command).read (3 ∷ (one ++ (zero_of_four ++ (zero_of_eight ++ (zero_of_four ++ (one ++ (1 ∷ (one ++ (0 ∷ [])))))))))
        ≡ Some (with_round (message.Append (append_of 1 0 0 0 (entry_of 1 what.Noop ∷ []))) 1, []) }
    ensures sent_past_the_greatest { (read_message kv_command).read (3 ∷ (one ++ (zero_of_four ++ (zero_of_eight ++ (zero_of_four ++ (past_greatest ++ (0 ∷ [])))))))
        ≡ None }
    ensures answer { (read_message kv_command).spell (with_round (message.Appended (record { term = 1; ok = true; index = 0 })) MAX_ROUND)
        ≡ 4 ∷ (one ++ (1 ∷ (zero_of_four ++ greatest))) }
    ensures reads_answer { (read_message kv_command).read (4 ∷ (one ++ (1 ∷ (zero_of_four ++ greatest))))
        ≡ Some (with_round (message.Appended (record { term = 1; ok = true; index = 0 })) MAX_ROUND, []) }
    ensures answer_past_the_greatest { (read_message kv_command).read (4 ∷ (one ++ (1 ∷ (zero_of_four ++ past_greatest)))) ≡ None }
    ensures answer_of_no_round { (read_message kv_command).read (4 ∷ (one ++ (1 ∷ zero_of_four))) ≡ None }
    ensures reads_vote { read_whole (read_message kv_command) (2 ∷ (one ++ (1 ∷ [])))
        ≡ Some (with_round (message.Vote (record { term = 1; granted = true })) 0) }
    ensures a_byte_after_a_vote { read_whole (read_message kv_command) (2 ∷ (one ++ (1 ∷ 0 ∷ []))) ≡ None }
    ensures no_round_of_a_vote { (read_message kv_command).Fits (with_round (message.Vote (record { term = 1; granted = true })) 1) → ⊥ }
{}
