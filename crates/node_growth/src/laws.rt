ghost use Rattle.node_growth.specs.GrowthLaws.{CountsOn, FewAreNew, HeardIsOfCluster, KeptFits, LeftIsCommon, LogBecomes, LogContinues, StaysSound};

use wire_messages::Wire;

/// What one event makes of a node's log, over every machine of such states, commands and outputs, and of whatever state.
pub fn events_leave_logs<S, C: Wire, O: Wire>()
    // The log stays, has one entry more at its end, or takes those of a leader, which cuts it at the first that differs in term.
    ensures becomes { LogBecomes S C.format O.format }

    // So up to the first place where the terms differ, the entries are those from before.
    ensures continues { LogContinues S C.format O.format }

    // By the event and the two lengths alone so many entries are known to have their old terms,
    ensures left_is_common { LeftIsCommon S C.format O.format }

    // and after them stand no more than a leader sent, or one.
    ensures few_are_new { FewAreNew S C.format O.format }
{}

/// Where the first entries of a log are known to have the first of some terms, only the rest is to be looked at.
pub fn terms_are_counted_on<C>()
    ensures counts_on { CountsOn C }
{}

/// A sound node stays so, whatever message in range comes from a node of its cluster, and what it keeps is in range.
pub fn events_keep_nodes_sound<S, C: Wire, O: Wire>()
    ensures sound { StaysSound S C.format O.format }

    // A datagram that is an event is such a message, or a request.
    ensures heard { HeardIsOfCluster C.format }
    ensures kept_fits { KeptFits S C O }
{}
