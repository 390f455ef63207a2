ghost use Rattle.node_records.specs.RecordLaws.{ActsJoin, EventIsStopped, EventTurnIsRecord, HeardIsStopped, NothingIsRecord, QuietTurnIsRecord, RecordIsStopped, RecordsGrow, StopsGrow, TurnsHear};

use wire_messages::Wire;

/// What a node hears in each turn that it may have, by its deadline and by what it receives.
pub fn turns_hear<S, C: Wire, O: Wire>()
    ensures { TurnsHear S C.format O.format }
{}

/// Records grow turn by turn.
pub fn records_grow<S, C: Wire, O: Wire>()
    // What two lists of acts make, the one after the other.
    ensures join { ActsJoin S C.format O.format }

    // Whole turns after whole turns are whole turns.
    ensures grow { RecordsGrow S C.format O.format }
{}

/// One whole turn is a record.
pub fn turn_is_record<S, C: Wire, O: Wire>()
    // No act is a record of no turn.
    ensures nothing { NothingIsRecord S C.format O.format }

    // What is heard without an event is one, and so is the first clock value.
    ensures quiet { QuietTurnIsRecord S C.format O.format }

    // So are an event, the save of the state after it, and what it says, in this order.
    ensures event { EventTurnIsRecord S C.format O.format }
{}

/// A turn that a fault, or want of memory, cuts short is orderly too, saves a part of what it is to save, and says a front of what its
/// event says.
pub fn fault_turns_are_orderly<S, C: Wire, O: Wire>()
    // Cut short in what it hears, also by a receive that failed.
    ensures heard { HeardIsStopped S C.format O.format }

    // Cut short in its saves or in what it says.
    ensures event { EventIsStopped S C.format O.format }

    // After whole turns, and these alone.
    ensures grow { StopsGrow S C.format O.format }
    ensures whole { RecordIsStopped S C.format O.format }
{}
