ghost use Rattle.std.specs.Prelude.{◌≡◌, ◌==◌, IfOk};
ghost use Rattle.wire_codec.specs.Headings.{HasByte, stack_byte};
ghost use Rattle.wired.specs.Wiring.{heard, is_peer_heading};

use crate::{Cluster, Packet};
use std::alloc::{AllocError, Global};
use vst_base::{Node, StackId};
use wire_codec::{Heading, Kind, decode};
use wire_messages::{Wire, from_bytes};

// Whether a stack whose nodes send packets is this one.
fn is_stack(stack: StackId, other: StackId) -> bool
    requires { HasByte stack }
    ensures { result ≡ (stack_byte stack == stack_byte other) }
{
    stack == other
}

// Whether the heading is that of a message from one node to another.
fn is_between(cluster: &Cluster, from: Node, to: Node, heading: &Heading) -> bool
    requires { HasByte heading.now.stack }
    ensures { result ≡ is_peer_heading cluster.now.stack cluster.now.name from to heading.now }
{
    is_stack(heading.stack, cluster.stack)
        && heading.kind.byte() == Kind::Peer.byte()
        && heading.from == from.index()
        && heading.to == to.index()
        && heading.name == cluster.name
}

/// The message that a packet is to a node that it comes to from another, and `None` where it is none.
pub fn hear<M: Wire>(
    alloc: Global,
    cluster: &Cluster,
    from: Node,
    to: Node,
    packet: &Packet,
) -> Result<Option<M>, AllocError>
    ensures { IfOk result (λ message. message ≡ heard M.format cluster.now.stack cluster.now.name from to packet.now) }
{
    let Some(datagram) = decode(packet.bytes()) else {
        return Ok(None);
    };
    if !is_between(cluster, from, to, &datagram.heading) {
        return Ok(None);
    }
    from_bytes(alloc, datagram.body)
}
