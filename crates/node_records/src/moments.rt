ghost use Rattle.node_records.specs.MomentLaws.{EventTurnsLeave, EventTurnsSave, KeepsIsSaving, MomentsGrow, QuietTurnsLeave, QuietTurnsSave, SavesGrow};
ghost use Rattle.node_records.specs.MomentLaws.{WaitingTurnsLeave, WholeIsCutShort};

use wire_messages::Wire;

/// Acts that make a state durable, whole or cut short, open as the old state or the new one at each moment, and whole as the new one.
pub fn saves_open_as_either<K>()
    ensures either { KeepsIsSaving K }

    // Whole acts count among those that were cut short.
    ensures whole { WholeIsCutShort }
{}

/// What a crash leaves at any moment of acts, it leaves at any moment of more, if all was said that their events say.
pub fn moments_grow<S, C: Wire, O: Wire>()
    ensures { MomentsGrow S C.format O.format }
{}

/// At any moment of a turn without an event, whole or cut short, a crash leaves what was there before.
pub fn quiet_turns_leave<S, C: Wire, O: Wire>()
    ensures { QuietTurnsLeave S C.format O.format }
{}

/// At any moment of a turn with an event, whole or cut short, a crash leaves the state before it or the one after it, and this one as
/// soon as a datagram went out.
pub fn event_turns_leave<S, C: Wire, O: Wire>()
    ensures { EventTurnsLeave S C.format O.format }
{}

/// While a turn waits for a datagram, a crash leaves the state after all events.
pub fn waiting_turns_leave<S, C: Wire, O: Wire>()
    ensures { WaitingTurnsLeave S C.format O.format }
{}

/// Of whole turns a crash leaves the state after no fewer events than are saved, where an event is by the last store act of its save,
/// or as it comes where that has none.
pub fn saved_events_count<S, C: Wire, O: Wire>()
    // A turn without an event.
    ensures quiet { QuietTurnsSave S C.format O.format }

    // One with an event.
    ensures event { EventTurnsSave S C.format O.format }

    // Turns one after the other.
    ensures grow { SavesGrow S C.format O.format }
{}
