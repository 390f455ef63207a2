ghost use Rattle.std.specs.Prelude.{◌≡◌, ℕ, [], true};
ghost use Rattle.raft_types.specs.Messages.{IsClusterSize, IsIndex, IsTerm};
ghost use Rattle.raft_types.specs.Terms.{term_of};
ghost use Rattle.raft_types.specs.declared.msg.RaftMsg.TheVariants as msg;

/// The borders of the ranges.
pub fn worked_ranges()
    ensures one_node { IsClusterSize 1 }
    ensures nine_nodes { IsClusterSize 9 }
    ensures no_node { ¬ IsClusterSize 0 }
    ensures ten_nodes { ¬ IsClusterSize 10 }

    ensures before_the_first_election { IsTerm 0 }
    ensures greatest_term { IsTerm 9223372036854775807 }
    ensures term_past_the_greatest { ¬ IsTerm 9223372036854775808 }

    ensures before_the_first_entry { IsIndex 0 }
    ensures last_of_a_full_log { IsIndex 1000000 }
    ensures past_a_full_log { ¬ IsIndex 1000001 }
{}

/// The term of each message.
pub fn worked_messages()
    ensures of_a_request { term_of {C = ℕ} (msg.RequestVote (record { term = 5; last_index = 3; last_term = 4 })) ≡ 5 }
    ensures of_a_vote { term_of {C = ℕ} (msg.Vote (record { term = 5; granted = true })) ≡ 5 }
    ensures of_entries { term_of {C = ℕ} (msg.Append (record { term = 5; prev_index = 3; prev_term = 4; commit = 2; entries = [] })) ≡ 5 }
    ensures of_taken_entries { term_of {C = ℕ} (msg.Appended (record { term = 5; ok = true; index = 3 })) ≡ 5 }
{}
