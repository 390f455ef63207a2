ghost use Rattle.std.specs.Prelude.{◌≡◌, ℕ, false, [], ◌∷◌, ◌++◌, List, Some, None, length};
ghost use Rattle.vst_base.specs.Examples.{counter};
ghost use Rattle.vst_base.specs.LogExamples.{noop};
ghost use Rattle.vst_base.specs.declared.step.Step.TheVariants as step;
ghost use Rattle.linearizability.specs.Examples.{asks, put_at, tell_at};
ghost use Rattle.linearizability.specs.Linearizable.{IsLinearizable};
ghost use Rattle.raft_reads.specs.Clusters.{seen, world_after};
ghost use Rattle.raft_reads.specs.Erasing.{erased};
ghost use Rattle.raft_reads.specs.ReadRaft.{waits};
ghost use Rattle.raft_reads.specs.Reads.{no_reads};
ghost use Rattle.raft_safety.specs.Examples as entries;
ghost use Rattle.raft_types.specs.declared.client.RaftInput.{RaftInput};
ghost use Rattle.raft_xform.specs.declared.role.Role.TheVariants as role;
ghost use Rattle.reads_safety.specs.Examples.{acknowledged, adders, alone, answered_late, counters, deposed, eight_reads, five, fives_read, leads_again, led, new_leader, nine_reads, old_acknowledgement, old_round, read_twice, six, stale, started_again};
ghost use Rattle.reads_safety.specs.Orders.{answered, executed_at, insert, insert_all, order};
ghost use Rattle.reads_safety.specs.Runs.{ArePairsUnused, IsRun, ReadsLeave};
ghost use Rattle.reads_safety.specs.Safety.{HadReadIndex, HasWaited, IsGone};

/// Runs of a node alone and of three nodes, so that the laws are not empty. A deposed leader never answers; a read is answered
/// once its round is acknowledged; and one is answered late, after the next leader has told another request, which
/// stands behind it. In the next three a wrong rule would answer the last read from an old state: an old round that is
/// acknowledged in a later term, acknowledgements that a new leader keeps, and a new leader without an entry of its
/// term committed.
pub fn worked_runs()
    ensures alone_allowed { IsRun (counters 1) alone }
    ensures alone_unused { ArePairsUnused (counters 1) alone }
    ensures alone_seen { seen (counters 1) alone ≡ put_at 0 five ∷ tell_at 0 7 1 0 ∷ put_at 0 eight_reads ∷ tell_at 0 8 1 5 ∷ [] }
    ensures alone_ordered { order (counters 1) alone ≡ five ∷ eight_reads ∷ [] }
    ensures alone_is_raft { erased (counters 1) alone ≡ step.Tick 0 ∷ step.In 0 five ∷ step.Tick 0 ∷ [] }

    ensures deposed_allowed { IsRun (counters 3) deposed }
    ensures deposed_seen { seen (counters 3) deposed ≡ put_at 1 five ∷ tell_at 1 7 1 0 ∷ put_at 0 eight_reads ∷ [] }
    ensures deposed_ordered { order (counters 3) deposed ≡ five ∷ [] }
    ensures deposed_drops { ((world_after (counters 3) deposed).state 0).reads.waiting ≡ [] }

    ensures acknowledged_allowed { IsRun (counters 3) acknowledged }
    ensures acknowledged_seen { seen (counters 3) acknowledged
        ≡ put_at 0 five ∷ tell_at 0 7 1 0 ∷ put_at 0 eight_reads ∷ tell_at 0 8 1 5 ∷ [] }
    ensures acknowledged_ordered { order (counters 3) acknowledged ≡ five ∷ eight_reads ∷ [] }

    ensures late_allowed { IsRun (counters 3) answered_late }
    ensures late_seen { seen (counters 3) answered_late
        ≡ put_at 0 five ∷ tell_at 0 7 1 0 ∷ put_at 0 eight_reads ∷ put_at 1 six ∷ tell_at 1 7 2 5 ∷ tell_at 0 8 1 5 ∷ [] }
    ensures late_ordered { order (counters 3) answered_late ≡ five ∷ eight_reads ∷ six ∷ [] }
    ensures late_answered { answered (counters 3) answered_late ≡ (2, eight_reads) ∷ [] }

    ensures old_round_allowed { IsRun (counters 3) old_round }
    ensures old_round_seen { seen (counters 3) old_round
        ≡ put_at 0 nine_reads ∷ put_at 2 five ∷ tell_at 2 7 1 0 ∷ put_at 0 eight_reads ∷ [] }
    ensures old_acknowledgement_allowed { IsRun (counters 3) old_acknowledgement }
    ensures old_acknowledgement_seen { seen (counters 3) old_acknowledgement
        ≡ put_at 0 nine_reads ∷ tell_at 0 9 1 0 ∷ put_at 2 five ∷ tell_at 2 7 1 0 ∷ put_at 0 eight_reads ∷ [] }
    ensures new_leader_allowed { IsRun (counters 3) new_leader }
    ensures new_leader_seen { seen (counters 3) new_leader ≡ put_at 0 five ∷ tell_at 0 7 1 0 ∷ put_at 1 eight_reads ∷ tell_at 1 8 1 5 ∷ [] }
    ensures new_leader_ordered { order (counters 3) new_leader ≡ five ∷ eight_reads ∷ [] }
{}

/// What the laws ask of a run, where it holds and where it doesn't: reads leave the state, the cluster has 1 to 9 nodes, the network
/// allows each step, and no pair is used again.
pub fn worked_premises()
    ensures reads_leave { ReadsLeave (adders 3) }
    ensures not_from_beyond_the_bound { ReadsLeave (counters 3) → ⊥ }
    ensures adding_five_does_not { ReadsLeave fives_read → ⊥ }
    ensures of_nine_nodes { IsRun (counters 9) [] }
    ensures not_of_ten { IsRun (counters 10) [] → ⊥ }
    ensures not_of_none { IsRun (counters 0) [] → ⊥ }
    ensures no_such_packet { IsRun (counters 3) (step.Deliver 0 ∷ []) → ⊥ }
    ensures not_while_down { IsRun (counters 3) (step.Crash 0 ∷ step.In 0 eight_reads ∷ []) → ⊥ }
    ensures acknowledged_unused { ArePairsUnused (counters 3) acknowledged }
    ensures late_unused { ArePairsUnused (counters 3) answered_late }
    ensures new_leader_unused { ArePairsUnused (counters 3) new_leader }
    ensures deposed_unused { ArePairsUnused (counters 3) deposed }
    ensures started_again_unused { ArePairsUnused (counters 3) leads_again }
    ensures read_twice_is_used { ArePairsUnused (counters 3) read_twice → ⊥ }
{}

/// A leader that stops while a read waits, starts, and leads again in the next term: the read is gone, and the acknowledgement
/// of its round comes for nothing. And when a read had its read index.
pub fn worked_starts()
    ensures started_again_allowed { IsRun (counters 3) leads_again }
    ensures waits_first { ((world_after (counters 3) (led ++ step.In 0 eight_reads ∷ [])).state 0).reads.waiting
        ≡ record { input = eight_reads; round = 1; read_index = 1 } ∷ [] }
    ensures has_none_when_started { ((world_after (counters 3) started_again).state 0).reads ≡ no_reads 3 }
    ensures leads_in_the_next_term { ((world_after (counters 3) leads_again).state 0).raft.role ≡ role.Leader }
    ensures in_term_two { ((world_after (counters 3) leads_again).state 0).raft.ballot.term ≡ 2 }
    ensures and_has_none { ((world_after (counters 3) leads_again).state 0).reads ≡ no_reads 3 }
    ensures never_told { seen (counters 3) leads_again ≡ put_at 0 eight_reads ∷ [] }
    ensures it_had_waited { HasWaited ℕ ℕ ℕ (counters 3) started_again eight_reads }
    ensures and_is_gone { IsGone ℕ ℕ ℕ (counters 3) started_again eight_reads }
    ensures a_write_never_waits { waits (counters 3).is_read ((world_after (counters 3) led).state 0) five ≡ false }
    ensures had_read_index { HadReadIndex ℕ ℕ ℕ (counters 3) acknowledged (2, eight_reads) }
    ensures inserted_in_turn { insert_all ((2, five) ∷ (4, six) ∷ []) ((3, eight_reads) ∷ (1, nine_reads) ∷ [])
        ≡ (1, nine_reads) ∷ (2, five) ∷ (3, eight_reads) ∷ (4, six) ∷ [] }
{}

/// The order and its parts: of requests with their places a read stands behind all of no greater place; what pairs are used
/// again; and that no order whatever explains a leader that answers at once.
pub fn worked_orders()
    ensures executed_with_indexes { executed_at (noop 1 ∷ entries.five 1 0 ∷ noop 2 ∷ entries.five 2 1 ∷ []) ≡ (2, five) ∷ [] }
    ensures put_in_first { insert ((2, five) ∷ (4, six) ∷ []) (1, eight_reads) ≡ (1, eight_reads) ∷ (2, five) ∷ (4, six) ∷ [] }
    ensures put_in_between { insert ((2, five) ∷ (4, six) ∷ []) (3, eight_reads) ≡ (2, five) ∷ (3, eight_reads) ∷ (4, six) ∷ [] }
    ensures put_in_behind_its_equal { insert ((2, five) ∷ (2, nine_reads) ∷ (4, six) ∷ []) (2, eight_reads)
        ≡ (2, five) ∷ (2, nine_reads) ∷ (2, eight_reads) ∷ (4, six) ∷ [] }

    ensures used_again_by_a_read { ArePairsUnused (counters 1) (step.In 0 five ∷ step.In 0 (asks 7 1 0) ∷ []) → ⊥ }
    ensures used_again_after_a_read { ArePairsUnused (counters 1) (step.In 0 eight_reads ∷ step.In 1 (asks 8 1 5) ∷ []) → ⊥ }
    ensures read_again { ArePairsUnused (counters 1) (step.In 0 eight_reads ∷ step.Tick 0 ∷ step.In 0 eight_reads ∷ []) → ⊥ }
    ensures a_request_may_come_again { ArePairsUnused (counters 1) (step.In 0 five ∷ step.In 0 five ∷ []) }

    ensures no_order { (order : List (RaftInput ℕ)) → IsLinearizable counter order stale → ⊥ }
{}
