ghost use Rattle.std.specs.Prelude.{◌≡◌, ℕ, ◌+◌, ◌*◌, ◌<◌, ◌≤◌, ◌++◌, length, map, IsTrue, IfSome, IfOk, OnOk, Some, is_some, [], slice_get};
ghost use Rattle.net_semantics.specs.Held.{held_sent};
ghost use Rattle.net_semantics.specs.Order.{LanesFollow, all_ends};
ghost use Rattle.net_semantics.specs.Taking.{Happens, IsReady};

use crate::Trace;
use crate::packets::{Packets, Parcel};
use handler_trait::{Effects, Handlers, MAX_SENDS};
use lanes::Lanes;
use std::alloc::{AllocError, Global};
use std::mem;
use vst_base::{Item, Node};

// Forgets the event before, and makes room for the next.
fn make_room<O: Drop, M: Drop>(effects: &mut Effects<O, M>) -> Result<(), AllocError>
    ensures outputs { effects.new.outputs ≡ [] }
    ensures sends { effects.new.sends ≡ [] }
    ensures room { OnOk result (MAX_SENDS ≤ effects.new.send_places) }
{
    effects.clear();
    effects.reserve(1, MAX_SENDS)
}

/// A client gives the node an input.
pub fn input_event<H: Handlers>(
    handlers: &H,
    alloc: Global,
    node: Node,
    states: &mut Vec<H::State>,
    input: &H::Input,
    effects: &mut Effects<H::Output, H::Msg>,
) -> Result<(), AllocError>
    requires node { node < (H.meaning handlers.now).nodes }
    requires held { node < length states.old.items }
    requires takes { IsTrue ((H.meaning handlers.now).takes_input node) }
    requires ready { IfSome (slice_get states.old.items node) (IsReady (H.sound handlers.now node) (H.spent handlers.now)) }
    ensures happens { OnOk result (Happens (λ s. (H.meaning handlers.now).input node s input.now) node states.old.items states.new.items
        effects.new) }
    ensures sound { OnOk result (IfSome (slice_get states.new.items node) (H.sound handlers.now node)) }
{
    make_room(effects)?;
    let state = &mut states[usize::from(node.index())];
    handlers.input(alloc, node, state, input, effects)
}

/// The node's timer fires.
pub fn timeout_event<H: Handlers>(
    handlers: &H,
    alloc: Global,
    node: Node,
    states: &mut Vec<H::State>,
    effects: &mut Effects<H::Output, H::Msg>,
) -> Result<(), AllocError>
    requires node { node < (H.meaning handlers.now).nodes }
    requires held { node < length states.old.items }
    requires ready { IfSome (slice_get states.old.items node) (IsReady (H.sound handlers.now node) (H.spent handlers.now)) }
    ensures happens { OnOk result (Happens (λ s. (H.meaning handlers.now).timeout node s) node states.old.items states.new.items
        effects.new) }
    ensures sound { OnOk result (IfSome (slice_get states.new.items node) (H.sound handlers.now node)) }
{
    make_room(effects)?;
    let state = &mut states[usize::from(node.index())];
    handlers.timeout(alloc, node, state, effects)
}

/// The packet comes to its destination.
pub fn message_event<H: Handlers>(
    handlers: &H,
    alloc: Global,
    packet: &Parcel<'_, H::Msg>,
    states: &mut Vec<H::State>,
    effects: &mut Effects<H::Output, H::Msg>,
) -> Result<(), AllocError>
    requires source { packet.now.source < (H.meaning handlers.now).nodes }
    requires destination { packet.now.destination < (H.meaning handlers.now).nodes }
    requires held { packet.now.destination < length states.old.items }
    requires ready { IfSome (slice_get states.old.items packet.now.destination)
        (IsReady (H.sound handlers.now packet.now.destination) (H.spent handlers.now)) }
    ensures happens { OnOk result (Happens
        (λ s. (H.meaning handlers.now).message packet.now.destination s packet.now.source packet.now.content.now)
        packet.now.destination states.old.items states.new.items effects.new) }
    ensures sound { OnOk result (IfSome (slice_get states.new.items packet.now.destination) (H.sound handlers.now packet.now.destination)) }
{
    make_room(effects)?;
    let node = packet.destination;
    let state = &mut states[usize::from(node.index())];
    handlers.message(alloc, node, state, packet.source, packet.content, effects)
}

// Clients see the node's outputs, in order. Where memory ran out the rest is dropped.
fn give_outputs<I: Drop, O: Drop>(
    node: Node,
    outputs: &mut Vec<O>,
    trace: &mut Trace<I, O>,
) -> Result<(), AllocError>
    ensures { OnOk result (trace.new ≡ trace.old ++ map (λ o. Item.Output node o) outputs.old.items) }
{
    for output in outputs.drain(..) {
        trace.push(Item::Output(node, output))?;
    }
    Ok(())
}

// What the node sends is in flight, in order.
fn send_packets<M: Drop>(
    node: Node,
    sends: &mut Vec<(Node, M)>,
    packets: &mut Packets<M>,
    lanes: &mut Option<Lanes>,
) -> Result<(), AllocError>
    ensures sent { OnOk result (packets.new ≡ packets.old ++ map (held_sent node) sends.old.items) }
    ensures kept { is_some lanes.new ≡ is_some lanes.old }
    ensures follow { LanesFollow lanes.old (all_ends packets.old) → LanesFollow lanes.new (all_ends packets.new) }
{
    for (destination, content) in sends.drain(..) {
        packets.send(lanes, node, destination, content)?;
    }
    Ok(())
}

// Clients see these outputs of the node, and these sends are in flight. What is left are effects without either, with their room.
fn release<I: Drop, O: Drop, M: Drop>(
    node: Node,
    effects: Effects<O, M>,
    trace: &mut Trace<I, O>,
    packets: &mut Packets<M>,
    lanes: &mut Option<Lanes>,
) -> Result<Effects<O, M>, AllocError>
    ensures trace { OnOk result (trace.new ≡ trace.old ++ map (λ o. Item.Output node o) effects.outputs) }
    ensures packets { OnOk result (packets.new ≡ packets.old ++ map (held_sent node) effects.sends) }
    ensures kept { is_some lanes.new ≡ is_some lanes.old }
    ensures follow { LanesFollow lanes.old (all_ends packets.old) → LanesFollow lanes.new (all_ends packets.new) }
{
    let (mut outputs, mut sends) = effects.into_parts();
    give_outputs(node, &mut outputs, trace)?;
    send_packets(node, &mut sends, packets, lanes)?;
    Ok(Effects::from_parts(outputs, sends))
}

/// Clients see what the event put out at the node, and what it sends is in flight. The effects are left without either, with
/// their room.
pub fn publish<I: Drop, O: Drop, M: Drop>(
    alloc: Global,
    node: Node,
    effects: &mut Effects<O, M>,
    trace: &mut Trace<I, O>,
    packets: &mut Packets<M>,
    lanes: &mut Option<Lanes>,
) -> Result<(), AllocError>
    ensures trace { OnOk result (trace.new ≡ trace.old ++ map (λ o. Item.Output node o) effects.old.outputs) }
    ensures packets { OnOk result (packets.new ≡ packets.old ++ map (held_sent node) effects.old.sends) }
    ensures kept { is_some lanes.new ≡ is_some lanes.old }
    ensures follow { LanesFollow lanes.old (all_ends packets.old) → LanesFollow lanes.new (all_ends packets.new) }
{
    let gathered = mem::replace(effects, Effects::new(alloc));
    *effects = release(node, gathered, trace, packets, lanes)?;
    Ok(())
}

/// The first state of each node, in order.
pub fn first_states<H: Handlers>(alloc: Global, handlers: &H) -> Result<Vec<H::State>, AllocError>
    ensures nodes { IfOk result (λ states. length states.items ≡ (H.meaning handlers.now).nodes) }
    ensures first { IfOk result (λ states. (n : ℕ) → n < (H.meaning handlers.now).nodes
        → slice_get states.items n ≡ Some ((H.meaning handlers.now).init n)) }
    ensures sound { IfOk result (λ states. (n : ℕ) → n < (H.meaning handlers.now).nodes
        → H.sound handlers.now n ((H.meaning handlers.now).init n)) }
{
    let nodes = handlers.nodes();
    let mut states = Vec::new(alloc);
    for n in 0..nodes {
        let node = Node::new(n, nodes).unwrap();
        states.push(handlers.init(alloc, node)?)?;
    }
    Ok(states)
}
