ghost use Rattle.node_progress.specs.ProgressLaws.{EventGoes, FirstGoes, GoesIsHalts, GoesOn, HaltsAfter, HeardHalts, QuietGoes, SaveHalts, SayHalts, WhoStays};

use node_body::Commands;
use wire_messages::Wire;

/// How turns follow each other, of a node of the stack of `C`.
pub fn turns_follow<S, C: Commands, O: Wire>()
    // Whole turns after whole turns are whole turns.
    ensures on { GoesOn S C.stack C.format O.format }

    // So may turns of which the last was cut short come after them.
    ensures halts { HaltsAfter S C.stack C.format O.format }

    // Whole turns count among turns that were cut short.
    ensures whole { GoesIsHalts S C.stack C.format O.format }

    // Its state is the same node's throughout.
    ensures who { WhoStays S C.stack C.format O.format }
{}

/// The start of a node's run, and one whole turn.
pub fn turns_go<S, C: Commands, O: Wire>()
    // The first clock value sets the deadline of the state that is rebooted.
    ensures first { FirstGoes S C.stack C.format O.format }

    // Without an event the node knows, and holds, what it did.
    ensures quiet { QuietGoes S C.stack C.format O.format }

    // With one it holds the state after it.
    ensures event { EventGoes S C.stack C.format O.format }
{}

/// Each way in which a fault, or want of memory, cuts a turn short.
pub fn turns_are_cut_short<S, C: Commands, O: Wire>()
    // In what it hears, also by a receive that failed.
    ensures heard { HeardHalts S C.stack C.format O.format }

    // In the save of its event.
    ensures save { SaveHalts S C.stack C.format O.format }

    // In what its event says.
    ensures say { SayHalts S C.stack C.format O.format }
{}
