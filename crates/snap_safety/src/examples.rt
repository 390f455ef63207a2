ghost use Rattle.std.specs.Prelude.{◌≡◌, true, false, [], ◌∷◌, ◌++◌};
ghost use Rattle.vst_base.specs.Examples.{counter};
ghost use Rattle.vst_base.specs.LogExamples.{noop};
ghost use Rattle.linearizability.specs.Examples.{put_at, tell_at};
ghost use Rattle.raft_snapshots.specs.Examples.{leader, wish};
ghost use Rattle.raft_free.specs.Nodes.{Appended};
ghost use Rattle.raft_xform.specs.Examples.{entry};
ghost use Rattle.snap_safety.specs.Applied.{applied_by, executed_by, grown, had_applied};
ghost use Rattle.snap_safety.specs.Examples.{CounterWay, IsShort, all_sent, alone, applying, behind, every_four, five, four, last_piece, none, none_again, noops, three_bytes};
ghost use Rattle.snap_safety.specs.Mirrors.{IsPiece, MirrorsInstall, MirrorsMessage, MirrorsNode, SnapHolds, free_node, packet};
ghost use Rattle.snap_safety.specs.Runs.{IsRun, seen, world_after};

/// Runs, so that the laws are not empty. A node alone answers a request again, from the sessions that it had in its snapshot when it
/// stopped. And a node of three, which has no entry of what the others commit, takes a snapshot, is elected, and
/// answers a request again from the sessions in it: in every way in which this snapshot is short and can be read.
pub fn worked_runs()
    ensures alone_allowed { (way : CounterWay) → IsRun (every_four way) counter 1 alone }
    ensures alone_seen { (way : CounterWay) → seen (every_four way) counter 1 alone
        ≡ put_at 0 five ∷ tell_at 0 7 1 0 ∷ put_at 0 none ∷ tell_at 0 7 2 5 ∷ put_at 0 none_again ∷ tell_at 0 7 3 5
        ∷ put_at 0 none_again ∷ tell_at 0 7 3 5 ∷ [] }
    ensures alone_applied { (way : CounterWay) → applied_by (every_four way) counter 1 alone ≡ four ++ noop 2 ∷ entry 2 0 3 0 ∷ [] }
    ensures alone_executed { (way : CounterWay) → executed_by (every_four way) counter 1 alone ≡ five ∷ none ∷ none_again ∷ [] }
    ensures alone_is_short { (way : CounterWay) → ((world_after (every_four way) counter 1 alone).state 0).log
        ≡ record { base = 4; base_term = 1; entries = noop 2 ∷ entry 2 0 3 0 ∷ [] } }

    ensures behind_allowed { (way : CounterWay) → IsShort way → IsRun (every_four way) counter 3 behind }
    ensures behind_seen { (way : CounterWay) → IsShort way → seen (every_four way) counter 3 behind
        ≡ put_at 0 five ∷ put_at 0 none ∷ put_at 0 none_again ∷ tell_at 0 7 1 0 ∷ tell_at 0 7 2 5 ∷ tell_at 0 7 3 5
        ∷ put_at 2 none_again ∷ tell_at 2 7 3 5 ∷ [] }
{}

/// What an event adds to the applied list: what a node has just applied, behind as much as it had applied before.
pub fn worked_lists()
    ensures before_the_last { had_applied (applying 3 (noop 2 ∷ [])) ≡ 2 }
    ensures one_more { grown (noop 1 ∷ noop 1 ∷ []) (applying 3 (noop 2 ∷ [])) ≡ noop 1 ∷ noop 1 ∷ noop 2 ∷ [] }
    ensures not_what_is_there { grown (noop 1 ∷ noop 1 ∷ []) (applying 1 (noop 1 ∷ [])) ≡ noop 1 ∷ noop 1 ∷ [] }
    ensures nothing_by_a_snapshot { grown (noop 1 ∷ noop 1 ∷ []) (applying 2 []) ≡ noop 1 ∷ noop 1 ∷ [] }
{}

/// Mirrors: a leader whose log begins after four entries holds what they make, a piece of its snapshot is mirrored by all of them, and
/// a wish for more by a refusal.
pub fn worked_mirrors()
    ensures the_leader_holds { SnapHolds counter three_bytes [] 0 noops (leader 2) }
    ensures not_past_the_end { SnapHolds counter three_bytes [] 0 noops (leader 4) → ⊥ }
    ensures not_without_what_is_gone { SnapHolds counter three_bytes [] 0 [] (leader 2) → ⊥ }
    ensures it_is_mirrored { MirrorsNode counter three_bytes [] 0 true (leader 2) (free_node noops true (leader 2)) }
    ensures the_whole_log_is_there { (free_node noops true (leader 2)).log ≡ noops }

    ensures a_piece { IsPiece (1 ∷ 2 ∷ 3 ∷ []) 1 (2 ∷ []) false }
    ensures not_elsewhere { IsPiece (1 ∷ 2 ∷ 3 ∷ []) 0 (2 ∷ []) false → ⊥ }
    ensures the_last_says_so { IsPiece (1 ∷ 2 ∷ []) 1 (2 ∷ []) false → ⊥ }
    ensures all_entries { MirrorsInstall counter three_bytes all_sent 0 1 last_piece }
    ensures not_without_them { MirrorsInstall counter three_bytes [] 0 1 last_piece → ⊥ }
    ensures a_refusal { MirrorsMessage counter three_bytes (packet 1 0 1 (Appended false 4) ∷ []) 1 0 (wish 1 4 2) }
{}
