ghost use Rattle.std.specs.Prelude.{◌≡◌, ℕ, [], ◌∷◌, ◌++◌, Some, false, true};
ghost use Rattle.net_semantics.specs.Worlds.{copies};
ghost use Rattle.vst_base.specs.Examples.{counter};
ghost use Rattle.vst_base.specs.LogExamples.{noop};
ghost use Rattle.vst_base.specs.declared.step.Step.TheVariants as step;
ghost use Rattle.raft_clients.specs.Executed.{executed_entries};
ghost use Rattle.raft_free.specs.Nodes as free;
ghost use Rattle.raft_types.specs.declared.client.RaftOut.TheVariants as told;
ghost use Rattle.raft_types.specs.declared.msg.RaftMsg.TheVariants as msg;
ghost use Rattle.raft_safety.specs.Applied.{applied_by, applied_lists, executed_by, longest};
ghost use Rattle.raft_safety.specs.Examples.{OfItsMirror, asked_again, asked_once, copied, elected, finished_by_the_next, five, late_copy, sent_first, started_again, two_clients, two_leaders};
ghost use Rattle.raft_safety.specs.Mirrors.{Mirrors, MirrorsNode, free_packet};
ghost use Rattle.raft_safety.specs.Runs.{AreMoments, IsReached, IsRun, Leads, log_at, seen, world_after};
ghost use Rattle.raft_safety.specs.Safety.{ComesInItsTerm, CommitsByTheRule};
ghost use Rattle.linearizability.specs.Examples.{asks, put, tell};
ghost use Rattle.lists.specs.Prefixes.{IsPrefix};

use vst_base::Item;

/// Runs of three nodes in which requests are executed and clients told, so that the laws are not empty. In
/// the first one node leads, and two clients ask it. In the second a client is told, another node leads in
/// the next term, the client asks that one the same again, and is told the same: the request is executed
/// once. In the third the node that told the client starts again: what it had applied before it stopped
/// still counts. In the fourth a leader stops before it commits, and the next one commits the request with its
/// no-op. In the fifth a copy of an entry comes late, to a node that knows it to be committed. In the last two
/// nodes lead at once, in different terms, and the one of the lesser term commits.
pub fn worked_runs()
    ensures two_clients_allowed { IsRun counter 3 two_clients }
    ensures two_clients_told { seen counter 3 two_clients ≡ put (asks 7 1 5) ∷ put (asks 9 1 3) ∷ tell 7 1 0 ∷ tell 9 1 5 ∷ [] }
    ensures two_executed { executed_by counter 3 two_clients ≡ asks 7 1 5 ∷ asks 9 1 3 ∷ [] }

    ensures asked_again_allowed { IsRun counter 3 asked_again }
    ensures one_leads { Leads (world_after counter 3 elected) 0 1 }
    ensures another_leads { Leads (world_after counter 3 asked_again) 1 2 }
    ensures applied_once { applied_by counter 3 asked_once ≡ noop 1 ∷ five 1 0 ∷ [] }
    ensures applied_twice { applied_by counter 3 asked_again ≡ noop 1 ∷ five 1 0 ∷ noop 2 ∷ five 2 1 ∷ [] }
    ensures executed_once { executed_by counter 3 asked_again ≡ asks 7 1 5 ∷ [] }
    ensures executed_as_taken_first { executed_entries (applied_by counter 3 asked_again) ≡ five 1 0 ∷ [] }
    ensures kept_while_down { log_at (world_after counter 3 asked_again) 0 ≡ noop 1 ∷ five 1 0 ∷ [] }
    ensures told_the_same { seen counter 3 asked_again ≡ put (asks 7 1 5) ∷ tell 7 1 0 ∷ Item.Input 1 (asks 7 1 5) ∷ Item.Output 1 (told.Reply 7 1 0) ∷ [] }

    ensures started_again_allowed { IsRun counter 3 started_again }
    ensures applied_before_it_stopped { applied_by counter 3 started_again ≡ noop 1 ∷ five 1 0 ∷ [] }
    ensures applied_by_none_now { longest 3 (applied_lists (world_after counter 3 started_again)) [] ≡ [] }
    ensures kept_by_the_start { log_at (world_after counter 3 started_again) 0 ≡ noop 1 ∷ five 1 0 ∷ [] }

    ensures finished_by_the_next_allowed { IsRun counter 3 finished_by_the_next }
    ensures committed_by_its_noop { applied_by counter 3 finished_by_the_next ≡ noop 1 ∷ five 1 0 ∷ noop 2 ∷ [] }
    ensures executed_by_the_next { executed_by counter 3 finished_by_the_next ≡ asks 7 1 5 ∷ [] }

    ensures copied_allowed { IsRun counter 3 (copied ++ step.Deliver 5 ∷ []) }
    ensures known_to_be_committed { ((world_after counter 3 copied).state 1).commit ≡ 2 }
    ensures applied_by_the_follower { ((world_after counter 3 copied).state 1).applied ≡ 2 }
    ensures lost { copies (world_after counter 3 copied) 6 ≡ 0 }
    ensures comes_late { ComesInItsTerm (world_after counter 3 copied) late_copy sent_first }
    ensures changes_no_commit { ((world_after counter 3 (copied ++ step.Deliver 5 ∷ [])).state 1).commit ≡ 2 }
    ensures changes_no_log { log_at (world_after counter 3 (copied ++ step.Deliver 5 ∷ [])) 1 ≡ noop 1 ∷ five 1 0 ∷ [] }

    ensures two_leaders_allowed { IsRun counter 3 two_leaders }
    ensures one_leads_in_its_term { Leads (world_after counter 3 two_leaders) 0 1 }
    ensures another_leads_in_the_next { Leads (world_after counter 3 two_leaders) 1 2 }
    ensures committed_in_the_lesser { CommitsByTheRule 3 (world_after counter 3 two_leaders) 0 1 2 }
    ensures no_more_committed { CommitsByTheRule 3 (world_after counter 3 two_leaders) 0 1 3 → ⊥ }
    ensures not_without_its_own_entry { CommitsByTheRule 3 (world_after counter 3 two_leaders) 1 2 0 → ⊥ }
    ensures told_by_the_lesser { seen counter 3 two_leaders ≡ put (asks 7 1 5) ∷ tell 7 1 0 ∷ [] }

    ensures no_nodes { IsRun counter 0 [] → ⊥ }
    ensures nine_nodes { IsRun counter 9 [] }
    ensures ten_nodes { IsRun counter 10 [] → ⊥ }
    ensures a_candidate_does_not_lead { Leads (world_after counter 3 (step.Tick 0 ∷ [])) 0 1 → ⊥ }
    ensures it_led { Leads (world_after counter 3 elected) 0 1 }
    ensures it_leads_no_more { Leads (world_after counter 3 (elected ++ step.Crash 0 ∷ [])) 0 1 → ⊥ }
    ensures an_end_is_no_beginning { IsPrefix (five 1 0 ∷ []) (five 2 1 ∷ five 1 0 ∷ []) → ⊥ }
    ensures other_moments { AreMoments counter 3 (world_after counter 3 asked_once) (world_after counter 3 started_again) }
    ensures moments_of_nine { AreMoments counter 9 (world_after counter 9 []) (world_after counter 9 (step.Tick 0 ∷ [])) }
    ensures reached { IsReached counter 3 (world_after counter 3 started_again) }
{}

/// What of a cluster's world a world with free choices mirrors: each node's fields, where one that is down follows, and each packet
/// that was sent.
pub fn worked_mirrors()
    ensures a_leader { OfItsMirror true ((world_after counter 3 elected).state 0) (λ x. x.role ≡ free.Leader) }
    ensures a_follower { OfItsMirror true ((world_after counter 3 elected).state 1) (λ x. x.role ≡ free.Follower) }
    ensures a_candidate { OfItsMirror true ((world_after counter 3 (step.Tick 0 ∷ [])).state 0) (λ x. x.role ≡ free.Candidate) }
    ensures down { OfItsMirror false ((world_after counter 3 elected).state 0) (λ x. x.role ≡ free.Follower) }
    ensures is_down { OfItsMirror false ((world_after counter 3 elected).state 0) (λ x. x.is_up ≡ false) }
    ensures term { OfItsMirror true ((world_after counter 3 elected).state 1) (λ x. x.term ≡ 1) }
    ensures voted { OfItsMirror true ((world_after counter 3 elected).state 1) (λ x. x.voted ≡ Some 0) }
    ensures has_its_votes { OfItsMirror true ((world_after counter 3 elected).state 0) (λ x. x.votes 1 ≡ true) }
    ensures no_other_vote { OfItsMirror true ((world_after counter 3 elected).state 0) (λ x. x.votes 2 ≡ false) }
    ensures matched { OfItsMirror true ((world_after counter 3 two_leaders).state 0) (λ x. x.matched 1 ≡ 2) }
    ensures log { OfItsMirror false ((world_after counter 3 asked_once).state 0) (λ x. x.log ≡ noop 1 ∷ five 1 0 ∷ []) }
    ensures commit { OfItsMirror false ((world_after counter 3 asked_once).state 0) (λ x. x.commit ≡ 2) }
    ensures applied { OfItsMirror true ((world_after counter 3 asked_once).state 1) (λ x. x.applied ≡ 0) }
    ensures the_first_node { MirrorsNode true ((world_after counter 3 []).state 0) (free.first_node ℕ) }
    ensures entries { free_packet 0 1 (msg.Append sent_first) ≡ record { source = 0; destination = 1; term = 1; message = free.Append 0 0 (noop 1 ∷ five 1 0 ∷ []) 0 } }
    ensures the_first_world { Mirrors (world_after counter 3 []) (free.first_world ℕ) }
    ensures not_the_first_world { Mirrors (world_after counter 3 elected) (free.first_world ℕ) → ⊥ }
    ensures not_without_packets { (v : free.FreeWorld ℕ) → v.sent ≡ [] → Mirrors (world_after counter 3 elected) v → ⊥ }
{}
