ghost use Rattle.cluster_histories.specs.ClusterLaws.{DeedsAreExplained, DeedsAreOfOneRun, KeptMovesAreExplained, KeptMovesAreOfOneRun};
ghost use Rattle.cluster_histories.specs.DeedLaws.{DeedsAreMoves};
ghost use Rattle.cluster_histories.specs.MoveLaws.{MomentsAreOfOneRun, MovesAreExplained, MovesAreRuns, PartsAreAllowed};

use vst_base::Machine;

/// Where nodes send and tell only what follows from events that they keep, and hear only what was sent to them, the events that count
/// are a run, and what clients note is a view of its trace. So if one machine explains each schedule that the network allows, one explains
/// what clients note. It holds of all handlers whose clients ask and are told as those of Raft are.
pub fn moves_are_runs<S, K, C, O, M, X>()
    // Where each node does its part by itself, and no message is forged, they do together what they may.
    ensures parts { PartsAreAllowed S K C O M }

    // Then what counts may happen, and what clients note is a view of what is seen of it.
    ensures are_runs { MovesAreRuns S K C O M }

    // What counts at two moments is two moments of one run.
    ensures moments { MomentsAreOfOneRun S K C O M }

    // And if one machine explains each schedule that the network allows, one explains what clients note.
    ensures one_machine { MovesAreExplained S K C O M X }
{}

/// Where each node stores what it decides before anything of it goes out, and no message is forged, each does its part, and clients
/// note the same. At each moment a node's areas open as what it keeps by what counts, or by that and the event that it came to last.
pub fn deeds_are_moves<S, K, I, O, M>()
    ensures { DeedsAreMoves S K I O M }
{}

/// Whatever 1 to 9 nodes of a machine's cluster do that store what they decide before anything of it goes out, and hear only what was
/// said to them: one machine explains what their clients note, also where they stop at any moment, and packets are lost, copied and late.
/// It is said of every record of a machine over the types of `M`, and not of the meaning of `M` alone.
pub fn clients_see_one_machine<M: Machine>()
    // What counts of their deeds is a run of Raft; what clients note is a view of its trace; and the requests that it executes explain
    // that.
    ensures deeds { DeedsAreExplained M.State M.Cmd M.Out }

    // What counts at two moments of their deeds is two moments of one run, so the laws of `raft_safety` hold of these; and what it
    // executes by each of the two explains what clients note by it.
    ensures deeds_go_on { DeedsAreOfOneRun M.State M.Cmd M.Out }

    // Of nodes by what they keep, whenever they keep it: they are explained too, and two moments of theirs are two of one run.
    ensures moves { KeptMovesAreExplained M.State M.Cmd M.Out }
    ensures moves_go_on { KeptMovesAreOfOneRun M.State M.Cmd M.Out }
{}
