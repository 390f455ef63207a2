ghost use Rattle.std.specs.Prelude.{◌≡◌, [], ◌∷◌, None, Some};
ghost use Rattle.node_acts.specs.Examples.{knowing, no_ops, state};
ghost use Rattle.node_acts.specs.Stores.{Continues, common};
ghost use Rattle.node_growth.specs.Examples.{a_request, after, append};
ghost use Rattle.node_growth.specs.Growth.{brought, left_by};
ghost use Rattle.node_run.specs.Examples.{asked_put, vote};

/// How many entries events leave at least, and how many they bring.
pub fn worked_lefts()
    // Where the log ends with a leader's entries, it may have been cut after those before them.
    ensures cut { left_by (append 1 (1 ∷ 3 ∷ [])) 4 3 ≡ 1 }
    ensures grown { left_by (append 2 (3 ∷ 3 ∷ [])) 2 4 ≡ 2 }
    ensures as_long { left_by (append 1 (1 ∷ 2 ∷ [])) 3 3 ≡ 1 }
    ensures a_heartbeat { left_by (append 4 []) 4 4 ≡ 4 }
    // Where it goes on past them, or ends before, it was not.
    ensures gone_on { left_by (append 1 (1 ∷ 2 ∷ [])) 4 4 ≡ 4 }
    ensures a_heartbeat_behind { left_by (append 1 []) 4 4 ≡ 4 }
    ensures not_taken { left_by (append 2 (3 ∷ 3 ∷ 3 ∷ [])) 4 4 ≡ 4 }
    ensures out_of_reach { left_by (append 9 (3 ∷ [])) 4 4 ≡ 4 }
    // No other event cuts a log.
    ensures a_vote { left_by vote 4 5 ≡ 4 }
    ensures a_request { left_by asked_put 4 5 ≡ 4 }
    ensures brought_two { brought (append 1 (1 ∷ 3 ∷ [])) ≡ 2 }
    ensures brought_none { brought (append 1 []) ≡ 0 }
    ensures brought_one { brought asked_put ≡ 1 }
{}

/// What a node keeps after a leader's entries, and that it continues what was kept.
pub fn worked_continuing()
    // A log is cut at the first entry that differs in term.
    ensures cut { after (state 3 None (1 ∷ 1 ∷ 2 ∷ 2 ∷ [])) (append 1 (1 ∷ 3 ∷ [])) ≡ state 3 None (1 ∷ 1 ∷ 3 ∷ []) }
    ensures cut_after_two { common (1 ∷ 1 ∷ 2 ∷ 2 ∷ []) (no_ops (1 ∷ 1 ∷ 3 ∷ [])) ≡ 2 }
    ensures cut_continues { Continues (knowing 0 38 1000 (state 3 None (1 ∷ 1 ∷ 2 ∷ 2 ∷ []))) (state 3 None (1 ∷ 1 ∷ 2 ∷ 2 ∷ []))
        (after (state 3 None (1 ∷ 1 ∷ 2 ∷ 2 ∷ [])) (append 1 (1 ∷ 3 ∷ []))) }
    // Where none differs it is not cut.
    ensures kept_whole { after (state 3 None (1 ∷ 1 ∷ 2 ∷ 2 ∷ [])) (append 1 (1 ∷ 2 ∷ [])) ≡ state 3 None (1 ∷ 1 ∷ 2 ∷ 2 ∷ []) }
    ensures whole_continues { Continues (knowing 0 38 1000 (state 3 None (1 ∷ 1 ∷ 2 ∷ 2 ∷ []))) (state 3 None (1 ∷ 1 ∷ 2 ∷ 2 ∷ []))
        (after (state 3 None (1 ∷ 1 ∷ 2 ∷ 2 ∷ [])) (append 1 (1 ∷ 2 ∷ []))) }
    // Those of an earlier term are refused, and a later term is gone on to.
    ensures refused { after (state 4 None (1 ∷ [])) (append 1 (3 ∷ [])) ≡ state 4 None (1 ∷ []) }
    ensures added { after (state 2 (Some 2) (1 ∷ [])) (append 1 (3 ∷ [])) ≡ state 3 None (1 ∷ 3 ∷ []) }
    // A log whose entries differ and whose terms do not is none that an event makes.
    ensures another_entry { Continues (knowing 0 38 1000 (state 3 None (1 ∷ []))) (state 3 None (1 ∷ [])) (a_request 1) → ⊥ }
{}
