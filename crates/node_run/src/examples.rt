ghost use Rattle.std.specs.Prelude.{◌≡◌, ◌^◌, ◌-◌, [], ◌∷◌, ◌++◌, None, Some};
ghost use Rattle.disk.specs.Acts.{Now, Quiet, ReceiveFailed, Took};
ghost use Rattle.node_run.specs.declared.event.Event.TheVariants.{Tick};
ghost use Rattle.node_run.specs.Examples.{are_orderly, asked_by_1, asked_put, asks, at_port, candidate, cluster, datagram, done, happened, heard, kept_as, number_of_eight, put_a_x, run, three_turns, top, turns, vote, voted_by_1, votes};
ghost use Rattle.node_run.specs.Settings.{due, later};
ghost use Rattle.node_run.specs.declared.due.Due.TheVariants.{Timeout, Wait};

/// When a node's timer fires, and how long it waits.
pub fn worked_waits()
    ensures before { due 300 299 ≡ Wait 1 }
    ensures at { due 300 300 ≡ Timeout }
    ensures past { due 300 1000 ≡ Timeout }
    ensures a_minute { due 100000 0 ≡ Wait 60000 }
    ensures later { later 5 300 ≡ 305 }
    ensures at_the_greatest { later (2 ^ 64 - 2) 300 ≡ 2 ^ 64 - 1 }
    ensures at_the_greatest_already { later (2 ^ 64 - 1) 300 ≡ 2 ^ 64 - 1 }
    ensures due_at_the_greatest { due (later (2 ^ 64 - 1) 300) (2 ^ 64 - 1) ≡ Timeout }
{}

/// Which datagrams are events of node 0.
#[tactic(auto, unfolding(wire_fields::specs::Bytes::number_bytes, wire_fields::specs::Bytes::number_in, wire_fields::specs::Bytes::has_bytes, wire_fields::specs::Bytes::read_number))]
pub fn worked_hearing()
    ensures a_vote_is_asked { heard 7001 asked_by_1 ≡ Some (candidate 1 1) }
    ensures in_the_greatest_term { heard 7001 (datagram 5 0 1 0 (asks top)) ≡ Some (candidate 1 (2 ^ 63 - 1)) }
    ensures of_no_bytes { heard 7001 [] ≡ None }
    ensures a_byte_more { heard 7001 (asked_by_1 ++ 0 ∷ []) ≡ None }
    ensures from_another_address { heard 9 asked_by_1 ≡ None }
    ensures from_another_node { heard 7001 (datagram 5 0 2 0 (asks (number_of_eight 1))) ≡ None }
    ensures from_itself { heard 7000 (datagram 5 0 0 0 (asks (number_of_eight 1))) ≡ None }
    ensures to_another_node { heard 7001 (datagram 5 0 1 2 (asks (number_of_eight 1))) ≡ None }
    ensures of_term_0 { heard 7001 (datagram 5 0 1 0 (asks (number_of_eight 0))) ≡ None }
    ensures of_another_kind { heard 7001 (datagram 5 3 1 0 (asks (number_of_eight 1))) ≡ None }
    ensures of_another_version { heard 7001 (86 ∷ 3 ∷ 5 ∷ 0 ∷ 1 ∷ 0 ∷ (cluster ++ asks (number_of_eight 1))) ≡ None }
    ensures of_another_name { heard 7001 (86 ∷ 2 ∷ 5 ∷ 0 ∷ 1 ∷ 0
        ∷ 1 ∷ 1 ∷ 2 ∷ 3 ∷ 4 ∷ 5 ∷ 6 ∷ 7 ∷ 8 ∷ 9 ∷ 10 ∷ 11 ∷ 12 ∷ 13 ∷ 14 ∷ 15 ∷ asks (number_of_eight 1)) ≡ None }
    ensures a_request { heard 7100 put_a_x ≡ Some asked_put }
    ensures a_request_of_no_client { heard 7001 put_a_x ≡ None }
    ensures a_message_of_no_node { heard 7001 (datagram 5 0 3 0 (asks (number_of_eight 1))) ≡ None }
    ensures of_the_other_stack { heard 7001 (datagram 7 0 1 0 (asks (number_of_eight 1))) ≡ None }
    ensures a_byte_less { heard 7001 (datagram 5 0 1 0
        (1 ∷ (number_of_eight 1 ++ (0 ∷ 0 ∷ 0 ∷ 0 ∷ 0 ∷ 0 ∷ 0 ∷ 0 ∷ 0 ∷ 0 ∷ 0 ∷ [])))) ≡ None }
    ensures past_the_greatest_term { heard 7001 (datagram 5 0 1 0 (asks (128 ∷ 0 ∷ 0 ∷ 0 ∷ 0 ∷ 0 ∷ 0 ∷ 0 ∷ []))) ≡ None }
{}

/// The events of runs, with what is kept and said after each.
#[tactic(auto, unfolding(wire_fields::specs::Bytes::number_bytes, wire_fields::specs::Bytes::number_in, wire_fields::specs::Bytes::has_bytes, wire_fields::specs::Bytes::read_number))]
pub fn worked_runs()
    ensures one_of_three { run (kept_as 0 None) three_turns ≡
        done (candidate 1 1) (kept_as 1 (Some 1)) ((at_port 7001, datagram 5 0 0 1 (votes (number_of_eight 1) 1)) ∷ []) ∷ [] }
    ensures voted_for_another { run (kept_as 1 (Some 1))
        (Now 0 ∷ Now 0 ∷ Took 300 (at_port 7002) (datagram 5 0 2 0 (asks (number_of_eight 1))) ∷ []) ≡
        done (candidate 2 1) (kept_as 1 (Some 1)) ((at_port 7002, datagram 5 0 0 2 (votes (number_of_eight 1) 0)) ∷ []) ∷ [] }
    ensures at_the_greatest_term { run (kept_as 0 None)
        (Now 0 ∷ Now 0 ∷ Took 300 (at_port 7001) (datagram 5 0 1 0 (asks top)) ∷ Now 1000 ∷ []) ≡
        done (candidate 1 (2 ^ 63 - 1)) (kept_as (2 ^ 63 - 1) (Some 1)) ((at_port 7001, datagram 5 0 0 1 (votes top 1)) ∷ [])
        ∷ done Tick (kept_as (2 ^ 63 - 1) (Some 1)) [] ∷ [] }
    ensures quiet { run (kept_as 0 None) (Now 0 ∷ Now 5 ∷ Quiet 295 ∷ Now 299 ∷ Quiet 1 ∷ []) ≡ [] }
    ensures a_timeout { run (kept_as 0 None) (Now 0 ∷ Now 300 ∷ []) ≡
        done Tick (kept_as 1 (Some 0)) ((at_port 7001, datagram 5 0 0 1 (asks (number_of_eight 1)))
        ∷ (at_port 7002, datagram 5 0 0 2 (asks (number_of_eight 1))) ∷ []) ∷ [] }
    ensures not_the_leader { run (kept_as 0 None) (Now 0 ∷ Now 0 ∷ Took 300 (at_port 7100) put_a_x ∷ []) ≡
        done asked_put (kept_as 0 None) ((at_port 7100, datagram 5 2 0 0 (number_of_eight 1 ++ 2 ∷ [])) ∷ []) ∷ [] }
{}

/// Deadlines after events, waits that are as long as they ask for, and turns.
#[tactic(auto, unfolding(wire_fields::specs::Bytes::number_bytes, wire_fields::specs::Bytes::number_in, wire_fields::specs::Bytes::has_bytes, wire_fields::specs::Bytes::read_number))]
pub fn worked_turns()
    // A message of another node moves the deadline, and a request leaves it.
    ensures moved { happened (Now 0 ∷ Now 100 ∷ Took 200 (at_port 7001) asked_by_1 ∷ Now 350 ∷ []) ≡ candidate 1 1 ∷ [] }
    ensures left { happened (Now 0 ∷ Now 100 ∷ Took 200 (at_port 7100) put_a_x ∷ Now 350 ∷ []) ≡ asked_put ∷ Tick ∷ [] }
    // A node that leads has the shorter period.
    ensures leads { happened (Now 0 ∷ Now 300 ∷ Now 310 ∷ Took 290 (at_port 7001) voted_by_1 ∷ Now 359 ∷ Quiet 1 ∷ Now 360 ∷ []) ≡
        Tick ∷ vote ∷ Tick ∷ [] }
    // At the greatest time each turn is a timeout.
    ensures at_the_greatest { happened (Now (2 ^ 64 - 1) ∷ Now (2 ^ 64 - 1) ∷ Now (2 ^ 64 - 1) ∷ []) ≡ Tick ∷ Tick ∷ [] }
    ensures orderly { are_orderly three_turns }
    ensures a_receive_before_the_clock { are_orderly (Took 300 (at_port 7001) asked_by_1 ∷ []) → ⊥ }
    ensures a_wait_before_the_clock { are_orderly (Quiet 300 ∷ []) → ⊥ }
    ensures a_failed_receive_before_the_clock { are_orderly (ReceiveFailed 300 ∷ []) → ⊥ }
    ensures a_receive_before_the_turn { are_orderly (Now 0 ∷ Took 300 (at_port 7001) asked_by_1 ∷ []) → ⊥ }
    ensures a_clock_that_falls { are_orderly (Now 1000 ∷ Now 0 ∷ Quiet 1300 ∷ Now 1300 ∷ []) }
    ensures another_wait { are_orderly (Now 0 ∷ Now 0 ∷ Quiet 299 ∷ []) → ⊥ }
    ensures a_wait_after_a_timeout { are_orderly (Now 0 ∷ Now 300 ∷ Quiet 300 ∷ []) → ⊥ }
    ensures two_receives { are_orderly (Now 0 ∷ Now 0 ∷ Quiet 300 ∷ Quiet 300 ∷ []) → ⊥ }
    ensures two_times { are_orderly (Now 0 ∷ Now 0 ∷ Now 0 ∷ []) → ⊥ }
    ensures a_turn_more_after_a_fault { are_orderly (Now 0 ∷ Now 0 ∷ ReceiveFailed 300 ∷ Now 0 ∷ []) → ⊥ }
    ensures three { turns three_turns ≡ 3 }
    ensures not_ended { turns (Now 0 ∷ Now 0 ∷ Quiet 300 ∷ Now 1 ∷ []) ≡ 1 }
    ensures a_timeout { turns (Now 0 ∷ Now 300 ∷ []) ≡ 1 }
{}
