ghost use Rattle.std.specs.Prelude.{◌≡◌, [], ◌∷◌, ◌++◌, codes, drop, take};
ghost use Rattle.disk.specs.Acts.{Began, Cut, Now, Quiet, ReceiveFailed, SendFailed, Sent, StoreFailed, Sync, Synced, Wrote};
ghost use Rattle.node_acts.specs.Examples.{knowing};
ghost use Rattle.node_records.specs.Examples.{answer, answered, are_record, first, is_at, is_saved_at, is_stopped, is_termed_at, known, knows_then, leaves, refused_request, save};
ghost use Rattle.node_records.specs.Examples.{saved_events, saves_then, silent_turn, two_events, voted};
ghost use Rattle.node_records.specs.Records.{ended_turns, kept_by, store_acts};
ghost use Rattle.node_run.specs.Examples.{at_port, three_turns};

/// What is folded over events, the store acts among others, and the acts of the turns that have ended.
#[tactic(auto, unfolding(wire_fields::specs::Bytes::number_bytes))]
pub fn worked_folds()
    // The state is held already when the timer fires.
    ensures saves { saves_then known two_events ≡ save }
    ensures known { knows_then known two_events ≡ knowing 0 56 999 voted }
    ensures known_still { knows_then known [] ≡ known }
    ensures kept { kept_by first two_events ≡ voted }
    ensures kept_still { kept_by first [] ≡ first }
    ensures stores { store_acts (Now 0 ∷ Wrote 0 9 (7 ∷ []) ∷ Cut 0 3 ∷ answered ∷ StoreFailed (Sync 1) ∷ ReceiveFailed 5 ∷ Synced 2 ∷ []) ≡
        Wrote 0 9 (7 ∷ []) ∷ Cut 0 3 ∷ StoreFailed (Sync 1) ∷ Synced 2 ∷ [] }
    ensures none_saved { saved_events two_events 3 ≡ 0 }
    // The timer's event has nothing to save, so the last store act of the vote saves both.
    ensures both_saved { saved_events two_events 4 ≡ 2 }
    ensures ended { ended_turns three_turns ≡ take 5 three_turns }
    ensures none_ended { ended_turns (Now 0 ∷ []) ≡ [] }
    ensures no_acts_ended { ended_turns [] ≡ [] }
{}

/// Records, and lists of acts that are none: of a turn less or more, with a write too much, a save or a datagram that is missing, one
/// that another node gets, with a fault, and with a device that begins once more.
#[tactic(auto, unfolding(wire_fields::specs::Bytes::number_bytes, wire_fields::specs::Bytes::number_in, wire_fields::specs::Bytes::has_bytes, wire_fields::specs::Bytes::read_number))]
pub fn worked_records()
    ensures three { are_record 3 (three_turns ++ (save ++ answered ∷ [])) }
    ensures lost { are_record 3 (three_turns ++ (save ++ SendFailed (at_port 7001) answer ∷ [])) }
    ensures four { are_record 4 (three_turns ++ (save ++ (answered ∷ Now 0 ∷ Quiet 300 ∷ []))) }
    ensures none { are_record 0 (Now 0 ∷ []) }
    ensures a_turn_less { are_record 2 (three_turns ++ (save ++ answered ∷ [])) → ⊥ }
    ensures a_turn_more { are_record 4 (three_turns ++ (save ++ answered ∷ [])) → ⊥ }
    ensures a_sync_more { are_record 3 (three_turns ++ (save ++ (Synced 0 ∷ answered ∷ []))) → ⊥ }
    ensures a_sync_less { are_record 3 (three_turns ++ (take 3 save ++ answered ∷ [])) → ⊥ }
    ensures not_saved { are_record 3 (three_turns ++ answered ∷ []) → ⊥ }
    ensures not_answered { are_record 3 (three_turns ++ save) → ⊥ }
    ensures to_another { are_record 3 (three_turns ++ (save ++ Sent (at_port 7002) answer ∷ [])) → ⊥ }
    ensures a_fault { are_record 3 (three_turns ++ (save ++ (answered ∷ Now 0 ∷ ReceiveFailed 300 ∷ []))) → ⊥ }
    ensures a_beginning { are_record 3 (three_turns ++ (save ++ (answered ∷ Began (at_port 7000) (codes "d") ∷ []))) → ⊥ }
{}

/// Turns that were cut short, and what no fault makes of them.
#[tactic(auto, unfolding(wire_fields::specs::Bytes::number_bytes, wire_fields::specs::Bytes::number_in, wire_fields::specs::Bytes::has_bytes, wire_fields::specs::Bytes::read_number))]
pub fn worked_stops()
    ensures heard { is_stopped 3 three_turns }
    ensures in_the_save { is_stopped 3 (three_turns ++ (take 1 save ++ StoreFailed (Sync 0) ∷ [])) }
    ensures not_answered { is_stopped 3 (three_turns ++ save) }
    ensures in_a_receive { is_stopped 4 (three_turns ++ (save ++ (answered ∷ Now 0 ∷ ReceiveFailed 300 ∷ []))) }
    ensures a_sync_more { is_stopped 3 (three_turns ++ (save ++ Synced 0 ∷ [])) → ⊥ }
    ensures not_saved { is_stopped 3 (three_turns ++ take 2 (drop 1 save)) → ⊥ }
    ensures to_another { is_stopped 3 (three_turns ++ (save ++ Sent (at_port 7002) answer ∷ [])) → ⊥ }
    ensures twice { is_stopped 3 (three_turns ++ (save ++ (answered ∷ answered ∷ []))) → ⊥ }
    ensures a_turn_more { is_stopped 2 three_turns → ⊥ }
    ensures a_beginning { is_stopped 3 (Began (at_port 7000) (codes "d") ∷ three_turns) → ⊥ }
    ensures after_a_fault { is_stopped 4 (three_turns ++ (save ++ (answered ∷ Now 0 ∷ ReceiveFailed 300 ∷ Now 0 ∷ []))) → ⊥ }
{}

/// What a crash may leave at moments of these turns: before the vote was heard the first state, and from its answer on the vote. A
/// request that a node refuses keeps nothing that is new. Once the next turn has begun, a crash leaves the event before it, whether this
/// said anything or not; and in a whole turn as soon as its save is done.
#[tactic(auto, unfolding(wire_fields::specs::Bytes::number_bytes, wire_fields::specs::Bytes::number_in, wire_fields::specs::Bytes::has_bytes, wire_fields::specs::Bytes::read_number))]
pub fn worked_moments()
    ensures before { is_at (take 6 three_turns) [] }
    ensures before_voted { is_at (take 6 three_turns) (1 ∷ []) → ⊥ }
    ensures heard { is_at three_turns [] }
    ensures heard_voted { is_at three_turns (1 ∷ []) }
    ensures answered { is_at (three_turns ++ (save ++ answered ∷ [])) (1 ∷ []) }
    ensures answered_first { is_at (three_turns ++ (save ++ answered ∷ [])) [] → ⊥ }
    ensures answered_before_the_save { is_at (three_turns ++ answered ∷ []) [] → ⊥ }
    ensures answered_too_soon { leaves (three_turns ++ answered ∷ save) → ⊥ }
    ensures refused { leaves refused_request }
    ensures silent { is_termed_at silent_turn (1 ∷ []) }
    ensures silent_first { is_termed_at silent_turn [] }
    ensures the_next_turn { is_termed_at (silent_turn ++ Now 0 ∷ []) (1 ∷ []) }
    ensures saved { is_saved_at silent_turn (1 ∷ []) }
    ensures saved_first { is_saved_at silent_turn [] → ⊥ }
    ensures in_the_save { is_saved_at (take 6 silent_turn) (1 ∷ []) }
    ensures in_the_save_first { is_saved_at (take 6 silent_turn) [] }
    ensures the_next_turn_first { is_termed_at (silent_turn ++ Now 0 ∷ []) [] → ⊥ }
{}
