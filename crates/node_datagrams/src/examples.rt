ghost use Rattle.std.specs.Prelude.{◌≡◌, [], ◌∷◌, ◌++◌};
ghost use Rattle.disk.specs.Acts.{Now, Sent};
ghost use Rattle.node_config.specs.Examples.{local, sample_with};
ghost use Rattle.node_datagrams.specs.Configured.{IsEventOf, settings_of};
ghost use Rattle.node_datagrams.specs.Examples.{before, has_begun, has_said, lost, sent, vote};
ghost use Rattle.node_datagrams.specs.Saying.{HasSaid, bytes_of};
ghost use Rattle.node_run.specs.Examples.{asked_put, at_port, candidate, datagram, granted, number_of_eight, settings};
ghost use Rattle.wire_messages.specs.ClientBytes.{client_reply};
ghost use Rattle.wire_messages.specs.KvBytes.{kv_command, kv_output};
ghost use Rattle.wire_messages.specs.RaftBytes.{raft_message};
ghost use Rattle.wire_messages.specs.declared.client.Answer.TheVariants as answer;

use wire_codec::Kind;

/// What a node of a configuration is to do.
pub fn worked_settings()
    ensures first_of_three { settings_of (sample_with 0 (local 7100 ∷ [])) ≡ settings }
{}

/// Which events come to node 0 of three.
pub fn worked_events()
    ensures of_another { IsEventOf (sample_with 0 []) (candidate 2 1) }
    ensures of_itself { IsEventOf (sample_with 0 []) (candidate 0 1) → ⊥ }
    ensures of_no_node { IsEventOf (sample_with 0 []) (candidate 3 1) → ⊥ }
    ensures of_a_client { IsEventOf (sample_with 0 []) asked_put }
{}

/// The bytes of a node's datagrams.
#[tactic(auto, unfolding(wire_fields::specs::Bytes::number_bytes))]
pub fn worked_bytes()
    ensures to_a_node { bytes_of (raft_message kv_command) settings Kind.Peer 1 granted ≡ vote 1 }
    ensures to_a_client { bytes_of (client_reply kv_output) settings Kind.Reply 0 (record { request = 1; answer = answer.NotLeader })
        ≡ datagram 5 2 0 0 (number_of_eight 1 ++ 2 ∷ []) }
{}

/// Two datagrams that were sent, or lost in sending: not in another order, not once more or less, not to another node, and with
/// nothing else. They were begun to be sent where the first one went out, and where none did.
pub fn worked_sayings()
    ensures both { has_said (sent 0 ∷ sent 1 ∷ []) }
    ensures one_lost { has_said (lost 0 ∷ sent 1 ∷ []) }
    ensures turned_round { has_said (sent 1 ∷ sent 0 ∷ []) → ⊥ }
    ensures one_less { has_said (sent 0 ∷ []) → ⊥ }
    ensures one_more { has_said (sent 0 ∷ sent 1 ∷ sent 1 ∷ []) → ⊥ }
    ensures to_another { has_said (sent 0 ∷ Sent (at_port 7002) (vote 1) ∷ []) → ⊥ }
    ensures a_clock_value { has_said (sent 0 ∷ sent 1 ∷ Now 0 ∷ []) → ⊥ }
    ensures nothing { HasSaid [] before before }
    ensures begun { has_begun (sent 0 ∷ []) }
    ensures not_begun { has_begun [] }
    ensures all { has_begun (sent 0 ∷ lost 1 ∷ []) }
    ensures begun_with_the_second { has_begun (sent 1 ∷ []) → ⊥ }
    ensures begun_twice { has_begun (sent 0 ∷ sent 0 ∷ []) → ⊥ }
{}
