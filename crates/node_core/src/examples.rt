ghost use Rattle.std.specs.Prelude.{◌≡◌, ◌-◌, ◌^◌, [], ◌∷◌, ◌++◌, None, Some};
ghost use Rattle.node_acts.specs.Examples.{knowing, state, who};
ghost use Rattle.node_body.specs.Bodies.{VoteAmong};
ghost use Rattle.node_core.specs.Examples.{after, config, first, says, started, taken, taken_with_a_strange_vote, thinking};
ghost use Rattle.node_core.specs.Replicas.{IsReady, IsTaken, kept_of, view_of, who_of};
ghost use Rattle.node_run.specs.Examples.{asked_put, at_port, candidate, datagram, number_of_eight, votes};
ghost use Rattle.node_run.specs.declared.event.Event.TheVariants.{Tick};

use vst_base::StackId;

/// A node at its start, and after an event: what it keeps, when its timer is to fire, and what it says. A request moves no deadline, and
/// no event changes what is known of the areas.
#[tactic(auto, unfolding(wire_fields::specs::Bytes::number_bytes))]
pub fn worked_replicas()
    ensures who { who_of config ≡ who }
    ensures first_deadline { (started 5).deadline ≡ 305 }
    ensures greatest_deadline { (started (2 ^ 64 - 1)).deadline ≡ 2 ^ 64 - 1 }
    ensures first_time { (started 5).time ≡ 5 }
    ensures starts { kept_of (started 5).state ≡ first }
    ensures view { (view_of (started 5)).deadline ≡ 305 }
    ensures votes { kept_of (after 7 (candidate 1 1)).state ≡ state 1 (Some 1) [] }
    ensures voted_at { (after 7 (candidate 1 1)).deadline ≡ 307 }
    ensures times_out { kept_of (after 300 Tick).state ≡ state 1 (Some 0) [] }
    ensures timed_out_at { (after 300 Tick).deadline ≡ 600 }
    ensures refuses { kept_of (after 7 asked_put).state ≡ first }
    ensures refused_at { (after 7 asked_put).deadline ≡ 300 }
    ensures known_still { (after 7 (candidate 1 1)).store ≡ knowing 0 38 1000 first }
    ensures says_its_vote { says (candidate 1 1) ≡ (at_port 7001, datagram 5 0 0 1 (votes (number_of_eight 1) 1)) ∷ [] }
    ensures says_that_it_does_not_lead { says asked_put ≡ (at_port 7100, datagram 5 2 0 0 (number_of_eight 1 ++ 2 ∷ [])) ∷ [] }
{}

/// A node is ready where it knows its areas to hold what it would keep, in a cluster of its own stack.
pub fn worked_readiness()
    ensures ready { IsReady StackId.KvRaft (started 0) }
    ensures of_another_stack { IsReady StackId.TableRaft (started 0) → ⊥ }
    ensures of_another_term { IsReady StackId.KvRaft (thinking (state 1 None [])) → ⊥ }
    ensures of_another_vote { IsReady StackId.KvRaft (thinking (state 0 (Some 1) [])) → ⊥ }
    ensures of_another_log { IsReady StackId.KvRaft (thinking (state 0 None (1 ∷ []))) → ⊥ }
{}

/// A node that has taken an event, of which so many entries at least are known to be held: those in front whose terms are held.
pub fn worked_taken()
    ensures all_that_are_held { IsTaken StackId.KvRaft (taken 2 (1 ∷ 1 ∷ 2 ∷ []) (1 ∷ 1 ∷ [])) }
    ensures fewer { IsTaken StackId.KvRaft (taken 1 (1 ∷ 1 ∷ 2 ∷ []) (1 ∷ 1 ∷ [])) }
    ensures one_that_is_not_held { IsTaken StackId.KvRaft (taken 3 (1 ∷ 1 ∷ 2 ∷ []) (1 ∷ 1 ∷ [])) → ⊥ }
    ensures one_of_another_term { IsTaken StackId.KvRaft (taken 2 (1 ∷ 2 ∷ []) (1 ∷ 1 ∷ [])) → ⊥ }
    ensures one_behind_a_difference { IsTaken StackId.KvRaft (taken 2 (1 ∷ 2 ∷ 2 ∷ []) (1 ∷ 1 ∷ 2 ∷ [])) → ⊥ }
    ensures up_to_a_difference { IsTaken StackId.KvRaft (taken 1 (1 ∷ 2 ∷ 2 ∷ []) (1 ∷ 1 ∷ 2 ∷ [])) }
    ensures of_another_stack { IsTaken StackId.TableRaft (taken 0 [] []) → ⊥ }
    ensures of_a_strange_vote { IsTaken StackId.KvRaft taken_with_a_strange_vote → ⊥ }
    ensures a_vote_of_the_cluster { VoteAmong 3 (Some 2) }
    ensures a_vote_past_it { VoteAmong 3 (Some 3) → ⊥ }
    ensures no_vote { VoteAmong 3 None }
{}
