ghost use Rattle.std.specs.Prelude.{◌≡◌, [], ◌∷◌, ◌++◌, take};
ghost use Rattle.cluster_histories.specs.Deeds.{Answered, Opened, Said};
ghost use Rattle.node_lives.specs.Examples.{again, are_lives, asks_it, first_life, found_with, is_life_of, is_of, killed};
ghost use Rattle.node_lives.specs.Examples.{refusal, vote_as, voted_life};
ghost use Rattle.node_lives.specs.Lives.{IsFresh};
ghost use Rattle.node_records.specs.Examples.{answer, first, voted};
ghost use Rattle.node_run.specs.Examples.{answered, at_port};
ghost use Rattle.raft_types.specs.declared.client.RaftOut.TheVariants.{Full, NotLeader};
ghost use Rattle.udp_node.specs.Examples.{begun, fresh_opening};

/// Which message or reply a datagram is.
#[tactic(auto, unfolding(wire_fields::specs::Bytes::number_bytes))]
pub fn worked_datagrams()
    ensures a_vote { is_of (at_port 7001, answer) (Said 1 vote_as) }
    ensures not_a_refusal { is_of (at_port 7001, answer) (Said 1 refusal) → ⊥ }
    ensures not_to_another { is_of (at_port 7001, answer) (Said 2 vote_as) → ⊥ }
    ensures not_to_no_node { is_of (at_port 7001, answer) (Said 3 vote_as) → ⊥ }
    ensures no_event { is_of (at_port 7001, answer) asks_it → ⊥ }
    ensures a_reply { is_of (answered 1 (2 ∷ [])) (Answered (NotLeader 0 1)) }
    ensures not_another { is_of (answered 1 (2 ∷ [])) (Answered (Full 0 1)) → ⊥ }
{}

/// The deeds of a life: of one that votes, of one that is killed in its save, or in its opening, and of those that follow.
#[tactic(auto, unfolding(wire_fields::specs::Bytes::number_bytes, wire_fields::specs::Bytes::number_in, wire_fields::specs::Bytes::has_bytes, wire_fields::specs::Bytes::read_number, node_body::specs::Journals::from_gate))]
pub fn worked_deeds()
    ensures votes { is_life_of voted_life (Opened first ∷ asks_it ∷ Said 1 vote_as ∷ []) }
    ensures killed { is_life_of killed (Opened first ∷ asks_it ∷ []) }
    ensures not_said { is_life_of killed (Opened first ∷ asks_it ∷ Said 1 vote_as ∷ []) → ⊥ }
    ensures not_left_out { is_life_of killed (Opened first ∷ []) → ⊥ }
    ensures in_its_opening { is_life_of (first_life (take 5 fresh_opening)) [] }
    ensures again_with_the_vote { is_life_of (again 1 1) (Opened voted ∷ []) }
    ensures again_without_it { is_life_of (again 0 1) (Opened first ∷ []) }
{}

/// Lives one after the other: what was killed in its save may find the vote, or its gate closed. It does not find another vote, which a
/// second process wrote.
#[tactic(auto, unfolding(wire_fields::specs::Bytes::number_bytes, wire_fields::specs::Bytes::number_in, wire_fields::specs::Bytes::has_bytes, wire_fields::specs::Bytes::read_number, node_body::specs::Journals::from_gate))]
pub fn worked_lives()
    ensures fresh { IsFresh begun.disk }
    ensures not_fresh { IsFresh (found_with 1 1).disk → ⊥ }
    ensures voted { are_lives (killed ∷ again 1 1 ∷ []) }
    ensures not_voted { are_lives (killed ∷ again 0 1 ∷ []) }
    ensures written_by_another { are_lives (killed ∷ again 1 2 ∷ []) → ⊥ }
{}
