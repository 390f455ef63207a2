ghost use Rattle.std.specs.Prelude.{◌≡◌, ℕ, ◌<◌, ◌++◌, List, Some, map, slice_get};
ghost use Rattle.std.specs.FinMap as finite;
ghost use Rattle.std.specs.List.{All, AllPairs};
ghost use Rattle.vst_base.specs.Machines.{MachineMeaning, state_after};
ghost use Rattle.vst_base.specs.declared.entry.Entry.{Entry};
ghost use Rattle.raft_clients.specs.Executed.{executed, executed_after, executed_entries, executed_places, commands, request_of, requests};
ghost use Rattle.raft_clients.specs.Executions.{IsAnswered, executions, last_session};
ghost use Rattle.raft_clients.specs.Sessions.{Sessions, applied_after, applied_all};
ghost use Rattle.raft_types.specs.declared.client.RaftInput.{RaftInput};

use vst_base::Machine;

/// Which requests are executed, and by which entries: those at the places that `executed` gives, whose
/// requests are the executed ones. What comes later changes none of them, and the numbers of each client
/// rise, so that no request is among them twice.
pub fn the_log_decides<C>()
    ensures at_the_places { (es : List (Entry C)) → map (slice_get es) (executed_places es) ≡ map Some (executed_entries es) }
    ensures by_their_entries { (es : List (Entry C)) → requests (executed_entries es) ≡ executed (requests es) }
    ensures a_beginning_stays { (earlier later : List (RaftInput C))
        → executed (earlier ++ later) ≡ executed earlier ++ executed_after Some earlier later }
    ensures its_entries_stay { (earlier later : List (Entry C))
        → executed_entries (earlier ++ later) ≡ executed_entries earlier ++ executed_after request_of (requests earlier) later }
    ensures numbers_rise { (rs : List (RaftInput C)) → AllPairs (λ a b. a.client ≡ b.client → a.request < b.request) (executed rs) }
{}

/// Applied in order, from the first state and no sessions on, the entries of a log leave the machine as its
/// executed requests alone do, each once. A client's session is its last execution, and an entry is answered
/// with the output of its request's execution. Entries may be applied in parts. It holds of every record of
/// a machine over the types of `M`, and not of the meaning of `M` alone.
pub fn the_machine_takes_each_request_once<M: Machine>()
    ensures state { (m : MachineMeaning M.State M.Cmd M.Out) (es : List (Entry M.Cmd))
        → (applied_all m m.init finite.empty es).state ≡ state_after m m.init (commands (executed (requests es))) }
    ensures sessions { (m : MachineMeaning M.State M.Cmd M.Out) (es : List (Entry M.Cmd)) (client : ℕ)
        → finite.get (applied_all m m.init finite.empty es).sessions client ≡ last_session (executions m (requests es)) client }
    ensures answers { (m : MachineMeaning M.State M.Cmd M.Out) (es : List (Entry M.Cmd))
        → All (IsAnswered (executions m (requests es))) (applied_all m m.init finite.empty es).answers }
    ensures in_parts { (m : MachineMeaning M.State M.Cmd M.Out) (state : M.State) (sessions : Sessions M.Out) (xs ys : List (Entry M.Cmd))
        → applied_all m state sessions (xs ++ ys) ≡ applied_after m (applied_all m state sessions xs) ys }
{}
