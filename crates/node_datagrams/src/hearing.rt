ghost use Rattle.std.specs.Prelude.{◌≡◌, ◌==◌, IfOk, IfSome, Some};
ghost use Rattle.node_datagrams.specs.Configured.{IsEventOf, settings_of};
ghost use Rattle.node_run.specs.Events.{event_of, is_for, peer_event, request_event};
ghost use Rattle.wire_codec.specs.Datagrams.{said, with_message};
ghost use Rattle.wire_codec.specs.Headings.{HasByte, heading, stack_byte};
ghost use Rattle.wire_messages.specs.ClientBytes.{client_request};
ghost use Rattle.wire_messages.specs.RaftBytes.{raft_message};

use crate::addresses::is_at;
use node_config::Config;
use node_run::Event;
use outside::Address;
use raft_types::{RaftInput, RaftMsg};
use std::alloc::{AllocError, Global};
use vst_base::{ClientId, MAX_NODES, Node, StackId};
use wire_codec::{Datagram, Kind, decode};
use wire_messages::{ClientRequest, Wire, from_bytes};

// Whether two stacks have the same byte, of which the first has one.
fn same_stack(a: StackId, b: StackId) -> bool
    requires { HasByte a }
    ensures { result ≡ (stack_byte a == stack_byte b) }
{
    a == b
}

// Whether a datagram is of this kind, of the node's stack and cluster, and for the node.
fn is_for(config: &Config, kind: Kind, datagram: &Datagram<'_>) -> bool
    requires { HasByte datagram.now.heading.stack }
    ensures { result ≡ is_for (settings_of config.now) kind datagram.now.heading }
{
    datagram.heading.kind.byte() == kind.byte()
        && same_stack(datagram.heading.stack, config.stack)
        && datagram.heading.to == config.me
        && datagram.heading.name == config.cluster
}

// The event of a message between nodes.
fn hear_peer<C: Wire>(
    alloc: Global,
    config: &Config,
    from: &Address,
    datagram: &Datagram<'_>,
) -> Result<Option<Event<C>>, AllocError>
    requires { heading.Fits datagram.now.heading }
    ensures event { IfOk result (λ event. event
        ≡ peer_event (settings_of config.now) from.now (with_message (raft_message C.format) (Some (said datagram.now)))) }
    ensures comes { IfOk result (λ event. IfSome event (IsEventOf config.now)) }
{
    if !is_for(config, Kind::Peer, datagram) {
        return Ok(None);
    }
    let number = datagram.heading.from;
    if number == config.me || !is_at(config.peers.as_slice(), number, from) {
        return Ok(None);
    }
    let Some(node) = Node::new(number, MAX_NODES) else {
        return Ok(None);
    };
    match from_bytes::<RaftMsg<C>>(alloc, datagram.body)? {
        Some(message) => Ok(Some(Event::Peer {
            from: node,
            message,
        })),
        None => Ok(None),
    }
}

// The event of a client's request.
fn hear_request<C: Wire>(
    alloc: Global,
    config: &Config,
    from: &Address,
    datagram: &Datagram<'_>,
) -> Result<Option<Event<C>>, AllocError>
    requires { heading.Fits datagram.now.heading }
    ensures event { IfOk result (λ event. event
        ≡ request_event (settings_of config.now) from.now (with_message (client_request C.format) (Some (said datagram.now)))) }
    ensures comes { IfOk result (λ event. IfSome event (IsEventOf config.now)) }
{
    if !is_for(config, Kind::Request, datagram) {
        return Ok(None);
    }
    let number = datagram.heading.from;
    if !is_at(config.clients.as_slice(), number, from) {
        return Ok(None);
    }
    match from_bytes::<ClientRequest<C>>(alloc, datagram.body)? {
        Some(request) => Ok(Some(Event::Asked(RaftInput {
            client: ClientId::new(u64::from(number)),
            request: request.request,
            cmd: request.cmd,
        }))),
        None => Ok(None),
    }
}

/// The event that a datagram from an address is: a message of another node from that node's address, or a request from the address of a
/// client's slot. `None` comes exactly where it is none.
pub fn hear<C: Wire>(
    alloc: Global,
    config: &Config,
    from: Address,
    bytes: &[u8],
) -> Result<Option<Event<C>>, AllocError>
    ensures event { IfOk result (λ event. event ≡ event_of (settings_of config.now) C.format from bytes.now) }
    ensures comes { IfOk result (λ event. IfSome event (IsEventOf config.now)) }
{
    let Some(datagram) = decode(bytes) else {
        return Ok(None);
    };
    match hear_peer(alloc, config, &from, &datagram)? {
        Some(event) => Ok(Some(event)),
        None => hear_request(alloc, config, &from, &datagram),
    }
}
