ghost use Rattle.datagram_laws.specs.DatagramLaws.{BytesAreOfOneOutput, BytesAreOfOnePacket, EachHasOrigin, EventsHaveBytes, NodesKeepBytes, NodesStartInBytes, NodesStayInBytes, OutputsAreNoEvents, OutputsAreRead, PacketsAreHeard, PacketsAreTakenAsSent, WhatIsHeardWasSaid};

use node_body::Commands;
use wire_messages::Wire;

/// What a node says is taken as just what it said, by the one that it is said to.
pub fn datagrams_are_heard<S, C: Wire, O: Wire>()
    // Each datagram is of a packet or of an output.
    ensures origins { EachHasOrigin C.format O.format S }

    // A packet's is heard as its message, from the sender's address, by the node that it is to.
    ensures packets { PacketsAreHeard C.format O.format }

    // An output's reads as this output, from this node, for its client.
    ensures outputs { OutputsAreRead C.format O.format }
{}

/// Bytes that a node said, to whomever, are to a node no event but a message that was sent to just that node.
pub fn what_is_heard_was_said<S, C: Wire, O: Wire>()
    // So it is of the datagram of a packet,
    ensures packets { PacketsAreTakenAsSent C.format O.format }

    // an output's is no event,
    ensures outputs { OutputsAreNoEvents C.format O.format }

    // and what is heard of any datagram that an event made is one of its packets.
    ensures said { WhatIsHeardWasSaid C.format O.format S }
{}

/// Bytes are those of one packet or of one output, and of one node.
pub fn bytes_are_of_one<C: Wire, O: Wire>()
    ensures packets { BytesAreOfOnePacket C.format O.format }
    ensures outputs { BytesAreOfOneOutput C.format O.format }
{}

/// Whatever datagrams come, a node sends packets that have bytes, and few, to other nodes, and what it keeps has bytes.
pub fn nodes_stay_in_bytes<S, C: Commands, O: Wire>()
    ensures events { EventsHaveBytes C.format }
    ensures starts { NodesStartInBytes S C.format O.format }
    ensures stays { NodesStayInBytes S C.format O.format }
    ensures keeps { NodesKeepBytes S O C.format }
{}
