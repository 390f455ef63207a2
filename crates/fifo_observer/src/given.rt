ghost use Rattle.std.specs.Prelude.{◌≡◌, List, Some, None, if◌then◌else◌, nat_lt};
ghost use Rattle.fifo_observer.specs.Channels.{Follows, ends_in};
ghost use Rattle.fifo_observer.specs.Observed.{IsGiven};
ghost use Rattle.fifo_xform.specs.Fifo.{fifo};
ghost use Rattle.net_semantics.specs.Runs.{run};
ghost use Rattle.vst_base.specs.declared.step.Step.{Step};
ghost use Rattle.xform_stack.specs.Running.{HasTaken};

use crate::Channels;
use fifo_xform::{Fifo, FifoState};
use handler_trait::Handlers;
use vst_base::{Node, Step};
use xform_stack::Network;

// Node `n` of so many.
fn node_of(n: u32, nodes: u8) -> Option<Node>
    ensures { result ≡ (if nat_lt n nodes then Some n else None) }
{
    Node::new(u8::try_from(n).ok()?, nodes)
}

// The packet whose content is given to the handlers within where packet `k` comes now: itself, if its number is the next of its channel.
fn given_by_arrival<H: Handlers, W: Network<Fifo<H>, Kept = FifoState<H::State, H::Msg>>>(
    channels: &Channels,
    network: &W,
    k: u32,
) -> Option<u32>
    requires { W.sound network.now }
    ensures { (ss : List (Step H.Input)) → HasTaken (W.system network.now) W.follows W.progress ss network.now
        → Follows channels.now (ends_in (run (fifo (H.meaning (W.within network.now))) (W.system network.now).recovery ss).packets)
        → IsGiven (H.meaning (W.within network.now)) (W.system network.now).recovery result ss (Step.Deliver k) }
{
    let (source, destination) = network.ends(k)?;
    let number = channels.number_of(k)?;
    let there = node_of(u32::from(destination.index()), network.handlers().nodes())?;
    let is_next = network.state(there).expects(source, number);
    is_next.then_some(k)
}

// The packet whose content is given to the handlers within where the timer of node `n` fires now: that of the content that is ready.
fn given_by_tick<H: Handlers, W: Network<Fifo<H>, Kept = FifoState<H::State, H::Msg>>>(
    channels: &Channels,
    network: &W,
    n: u32,
) -> Option<u32>
    requires { W.sound network.now }
    ensures { (ss : List (Step H.Input)) → HasTaken (W.system network.now) W.follows W.progress ss network.now
        → Follows channels.now (ends_in (run (fifo (H.meaning (W.within network.now))) (W.system network.now).recovery ss).packets)
        → IsGiven (H.meaning (W.within network.now)) (W.system network.now).recovery result ss (Step.Tick n) }
{
    let nodes = network.handlers().nodes();
    let node = node_of(n, nodes)?;
    let (source, number) = network.state(node).ready(nodes)?;
    channels.packet_with(source, node, number)
}

/// The packet whose content a step gives to the handlers within, if the network, which the channels follow, takes it now. It takes no
/// memory.
pub(crate) fn given<H: Handlers, W: Network<Fifo<H>, Kept = FifoState<H::State, H::Msg>>>(
    channels: &Channels,
    network: &W,
    step: &Step<H::Input>,
) -> Option<u32>
    requires { W.sound network.now }
    ensures { (ss : List (Step H.Input)) → HasTaken (W.system network.now) W.follows W.progress ss network.now
        → Follows channels.now (ends_in (run (fifo (H.meaning (W.within network.now))) (W.system network.now).recovery ss).packets)
        → IsGiven (H.meaning (W.within network.now)) (W.system network.now).recovery result ss step.now }
{
    match step {
        Step::Deliver(k) => given_by_arrival(channels, network, *k),
        Step::Tick(n) => given_by_tick(channels, network, *n),
        _ => None,
    }
}
