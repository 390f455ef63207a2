ghost use Rattle.std.specs.Prelude.{◌≡◌, ℕ, [], ◌∷◌, Some, None};
ghost use Rattle.std.specs.FinMap as finite;
ghost use Rattle.vst_base.specs.Examples.{counter};
ghost use Rattle.raft_clients.specs.Examples.{asked, asks, noop, one_client, session, two_clients};
ghost use Rattle.raft_clients.specs.Executed.{executed, executed_entries, executed_places, requests};
ghost use Rattle.raft_clients.specs.Executions.{executions, last_session};
ghost use Rattle.raft_clients.specs.Sessions.{applied, applied_all, passes};

/// What one entry does with a machine that adds each command and answers with the sum before.
pub fn worked_answers()
    ensures first_of_a_client { applied counter 8 one_client (asks 9 1 4) ≡ record { state = 12; sessions = finite.insert one_client 9 (session 1 8); output = Some 8 } }
    ensures first_may_be_zero { applied counter 8 one_client (asks 9 0 4) ≡ record { state = 12; sessions = finite.insert one_client 9 (session 0 8); output = Some 8 } }
    ensures next { applied counter 8 one_client (asks 7 3 4) ≡ record { state = 12; sessions = finite.insert one_client 7 (session 3 8); output = Some 8 } }
    ensures numbers_left_out { applied counter 8 one_client (asks 7 6 4) ≡ record { state = 12; sessions = finite.insert one_client 7 (session 6 8); output = Some 8 } }
    ensures repeated { applied counter 8 one_client (asks 7 2 3) ≡ passes 8 one_client (Some 5) }
    ensures repeated_with_another_command { applied counter 8 one_client (asks 7 2 9) ≡ passes 8 one_client (Some 5) }
    ensures lower { applied counter 8 one_client (asks 7 1 3) ≡ passes 8 one_client None }
    ensures nothing { applied counter 8 one_client noop ≡ passes 8 one_client None }
    ensures nothing_of_client_0 { applied counter 8 finite.empty noop ≡ passes 8 finite.empty None }
{}

/// Which requests are executed, by which entries, and where these stand.
pub fn worked_executed()
    ensures two_clients { executed (requests two_clients) ≡ asked 7 1 3 ∷ asked 9 4 1 ∷ asked 7 2 5 ∷ asked 9 6 2 ∷ [] }
    ensures their_entries { executed_entries two_clients ≡ asks 7 1 3 ∷ asks 9 4 1 ∷ asks 7 2 5 ∷ asks 9 6 2 ∷ [] }
    ensures places { executed_places two_clients ≡ 1 ∷ 2 ∷ 5 ∷ 8 ∷ [] }
    ensures none { executed {C = ℕ} [] ≡ [] }
    ensures nothing_asked { executed_places (noop ∷ noop ∷ []) ≡ [] }
    ensures nothing_between { requests (noop ∷ asks 7 1 3 ∷ noop ∷ asks 7 1 8 ∷ []) ≡ asked 7 1 3 ∷ asked 7 1 8 ∷ [] }
    ensures first_zero { executed_places (asks 7 0 1 ∷ asks 7 0 1 ∷ []) ≡ 0 ∷ [] }
    ensures over_all_and_not_the_last { executed_places (asks 7 5 1 ∷ asks 7 3 1 ∷ asks 7 4 1 ∷ asks 7 6 1 ∷ []) ≡ 0 ∷ 3 ∷ [] }
{}

/// What a log does with the machine, from its first state on, and what of it is kept.
pub fn worked_logs()
    ensures state { (applied_all counter 0 finite.empty two_clients).state ≡ 11 }
    ensures answers { (applied_all counter 0 finite.empty two_clients).answers
        ≡ (asks 7 1 3, 0) ∷ (asks 9 4 1, 3) ∷ (asks 7 1 8, 0) ∷ (asks 7 2 5, 4) ∷ (asks 9 4 1, 3) ∷ (asks 9 6 2, 9) ∷ [] }
    ensures executions { executions counter (requests two_clients) ≡ (asked 7 1 3, 0) ∷ (asked 9 4 1, 3) ∷ (asked 7 2 5, 4) ∷ (asked 9 6 2, 9) ∷ [] }
    ensures last_of_7 { last_session (executions counter (requests two_clients)) 7 ≡ Some (session 2 4) }
    ensures last_of_9 { last_session (executions counter (requests two_clients)) 9 ≡ Some (session 6 9) }
    ensures none_of_8 { last_session (executions counter (requests two_clients)) 8 ≡ None }
    ensures none_of_0 { last_session (executions counter (requests two_clients)) 0 ≡ None }
{}
