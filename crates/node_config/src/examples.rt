ghost use Rattle.std.specs.Prelude.{◌≡◌, ◌∷◌, ◌++◌, [], None, Some, Ok, Err, codes, pos, negsuc, replicate, true, false};
ghost use Rattle.node_config.specs.Addresses.{address_of, are_distinct};
ghost use Rattle.node_config.specs.Configs.{config_of, configured};
ghost use Rattle.node_config.specs.Examples.{first, holding, local, name, second, strings, third, without};
ghost use Rattle.node_config.specs.Examples.{sample, sample_rest, sample_text, sample_with};
ghost use Rattle.node_config.specs.Names.{name_of};
ghost use Rattle.node_config.specs.declared.key.ConfigKey.TheVariants as key;
ghost use Rattle.toml.specs.Data.{array, integer, item, member, no_items, no_members, string};

/// Texts that spell addresses, and others.
#[tactic(auto, unfolding(crate::proofs::OnLiterals::words_on_literals))]
pub fn worked_addresses()
    ensures local { address_of (codes "127.0.0.1:7000") ≡ Some (local 7000) }
    ensures greatest { address_of (codes "255.255.255.255:65535") ≡ Some (record { ip = 255 ∷ 255 ∷ 255 ∷ 255 ∷ []; port = 65535 }) }
    ensures least { address_of (codes "0.0.0.0:1") ≡ Some (record { ip = 0 ∷ 0 ∷ 0 ∷ 0 ∷ []; port = 1 }) }
    ensures no_text { address_of [] ≡ None }
    ensures past_a_byte { address_of (codes "127.0.0.256:7000") ≡ None }
    ensures no_port { address_of (codes "127.0.0.1") ≡ None }
    ensures port_zero { address_of (codes "127.0.0.1:0") ≡ None }
    ensures past_the_greatest_port { address_of (codes "127.0.0.1:65536") ≡ None }
    ensures leading_zero { address_of (codes "127.0.0.01:7000") ≡ None }
    ensures three_numbers { address_of (codes "127.0.1:7000") ≡ None }
    ensures five_numbers { address_of (codes "127.0.0.0.1:7000") ≡ None }
    ensures no_number { address_of (codes "127..0.1:7000") ≡ None }
    ensures a_space { address_of (codes " 127.0.0.1:7000") ≡ None }
    ensures a_sign { address_of (codes "127.0.0.1:+7000") ≡ None }
    ensures a_host { address_of (codes "localhost:7000") ≡ None }
    ensures two_ports { address_of (codes "127.0.0.1:7000:7001") ≡ None }
    ensures distinct { are_distinct (local 7000 ∷ local 7001 ∷ local 7002 ∷ []) ≡ true }
    ensures the_last_again { are_distinct (local 7000 ∷ local 7001 ∷ local 7001 ∷ []) ≡ false }
    ensures the_first_again { are_distinct (local 7000 ∷ local 7001 ∷ local 7000 ∷ []) ≡ false }
{}

/// Names of clusters.
#[tactic(auto, unfolding(crate::proofs::OnLiterals::words_on_literals))]
pub fn worked_names()
    ensures sixteen { name_of (codes "000102030405060708090a0b0c0d0e0f") ≡ Some name }
    ensures greater_digit_first { name_of (codes "f0000000000000000000000000000000") ≡ Some (240 ∷ replicate 15 0) }
    ensures upper_case { name_of (codes "000102030405060708090A0b0c0d0e0f") ≡ None }
    ensures a_digit_short { name_of (codes "000102030405060708090a0b0c0d0e0") ≡ None }
    ensures two_digits_more { name_of (codes "000102030405060708090a0b0c0d0e0f10") ≡ None }
    ensures no_digit { name_of (codes "000102030405060708090a0b0c0d0e0g") ≡ None }
{}

/// What tables come to, and for which key they are refused first.
#[tactic(auto, unfolding(crate::proofs::OnLiterals::tables_on_literals))]
pub fn worked_tables()
    ensures first_node { config_of 0 sample ≡ Ok (sample_with 0 []) }
    ensures last_node { config_of 2 sample ≡ Ok (sample_with 2 []) }
    ensures past_the_last { config_of 3 sample ≡ Err key.Me }
    ensures clients_in_order { config_of 0 (holding (codes "clients") (strings (codes "127.0.0.1:9" ∷ codes "127.0.0.1:8" ∷ [])) sample)
        ≡ Ok (sample_with 0 (local 9 ∷ local 8 ∷ [])) }
    ensures no_stack { config_of 0 (without (codes "stack") sample) ≡ Err key.Stack }
    ensures another_stack { config_of 0 (holding (codes "stack") (string (codes "kv/pb")) sample) ≡ Err key.Stack }
    ensures no_peers { config_of 0 (without (codes "peers") sample) ≡ Err key.Peers }
    ensures empty_peers { config_of 0 (holding (codes "peers") (array no_items) sample) ≡ Err key.Peers }
    ensures ten_peers { config_of 0 (holding (codes "peers") (strings (replicate 10 first)) sample) ≡ Err key.Peers }
    ensures a_peer_that_is_none { config_of 0 (holding (codes "peers") (strings (first ∷ codes "here" ∷ [])) sample) ≡ Err key.Peers }
    ensures a_number_for_a_peer { config_of 0 (holding (codes "peers") (array (item (integer (pos 7000)) no_items)) sample)
        ≡ Err key.Peers }
    ensures one_peer_alone { config_of 0 (holding (codes "peers") (string first) sample) ≡ Err key.Peers }
    ensures no_clients { config_of 0 (without (codes "clients") sample) ≡ Err key.Clients }
    ensures a_client_twice { config_of 0 (holding (codes "clients") (strings (codes "127.0.0.1:9" ∷ codes "127.0.0.1:9" ∷ [])) sample)
        ≡ Err key.Clients }
    ensures a_client_that_is_a_peer { config_of 0 (holding (codes "clients") (strings (third ∷ [])) sample) ≡ Err key.Clients }
    ensures a_peer_twice { config_of 0 (holding (codes "peers") (strings (first ∷ second ∷ first ∷ [])) sample) ≡ Err key.Clients }
    ensures no_heartbeat { config_of 0 (without (codes "heartbeat_ms") sample) ≡ Err key.HeartbeatMs }
    ensures heartbeat_zero { config_of 0 (holding (codes "heartbeat_ms") (integer (pos 0)) sample) ≡ Err key.HeartbeatMs }
    ensures election_below_zero { config_of 0 (holding (codes "election_ms") (integer (negsuc 0)) sample) ≡ Err key.ElectionMs }
    ensures election_past_the_greatest { config_of 0 (holding (codes "election_ms") (integer (pos 60001)) sample) ≡ Err key.ElectionMs }
    ensures election_as_text { config_of 0 (holding (codes "election_ms") (string (codes "300")) sample) ≡ Err key.ElectionMs }
    ensures no_cluster { config_of 0 (without (codes "cluster") sample) ≡ Err key.Cluster }
    ensures another_key { config_of 0 (member (codes "client") (array no_items) sample) ≡ Err key.Unknown }

    // The first that applies is answered.
    ensures unknown_before_me { config_of 3 (member (codes "client") (array no_items) sample) ≡ Err key.Unknown }
    ensures stack_before_all { config_of 3 (member (codes "client") (array no_items) no_members) ≡ Err key.Stack }
    ensures cluster_before_unknown { config_of 0 (member (codes "client") (array no_items) (without (codes "cluster") sample))
        ≡ Err key.Cluster }
    ensures peers_before_clients { config_of 0 (without (codes "clients") (holding (codes "peers") (array no_items) sample))
        ≡ Err key.Peers }
{}

/// What texts come to.
#[tactic(auto, unfolding(crate::proofs::OnLiterals::texts_on_literals))]
pub fn worked_texts()
    ensures whole { configured 0 sample_text ≡ Ok (sample_with 0 []) }
    ensures no_such_node { configured 3 sample_text ≡ Err key.Me }
    ensures no_text { configured 0 [] ≡ Err key.Stack }
    ensures no_document { configured 0 (codes "stack =\n") ≡ Err key.Text }
    ensures a_key_twice { configured 0 (codes "stack = 1\nstack = 1\n") ≡ Err key.Text }
    ensures no_utf8 { configured 0 (codes "# " ++ 255 ∷ []) ≡ Err key.Text }
    ensures a_stack_alone { configured 0 (codes "stack = \"table/raft\"\n") ≡ Err key.Peers }
    ensures another_stack { configured 0 (codes "stack = \"lock\"\n" ++ sample_rest) ≡ Err key.Stack }
    ensures another_key { configured 0 (sample_text ++ codes "port = 7000\n") ≡ Err key.Unknown }
    ensures keys_of_another_table { configured 0 (codes "[raft]\n" ++ sample_text) ≡ Err key.Stack }
{}
