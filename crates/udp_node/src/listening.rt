ghost use Rattle.std.specs.Prelude.{◌≡◌, length, true, IfErr, IfOk, IfSome, OnErr};
ghost use Rattle.node_core.specs.Replicas.{view_of};
ghost use Rattle.node_datagrams.specs.Configured.{IsEventOf, settings_of};
ghost use Rattle.node_device.specs.Telling.{TellsOn, WhereTold};
ghost use Rattle.node_device.specs.declared.limits.TheConstants.{RECEIVE_BUFFER};
ghost use Rattle.udp_node.specs.Causes.{Counts, IsOfATurn};
ghost use Rattle.udp_node.specs.Listening.{HasCutOff, HasHeard, HasReceived, HasStoppedHearing};
ghost use Rattle.udp_node.specs.Serving.{StillTold};

use crate::NodeFault;
use node_body::Commands;
use node_config::Config;
use node_core::Shipped;
use node_datagrams::hear;
use node_device::{Device, Received};
use node_run::{Due, Event};
use std::alloc::Global;
use wire_messages::Wire;

// Waits for a datagram, and answers the event that it is, if one comes in time and is an event.
fn listen<D: Device, C: Wire>(
    alloc: Global,
    device: &mut D,
    config: &Config,
    wait_ms: u32,
    received: &mut [u8],
) -> Result<Option<Event<C>>, NodeFault>
    requires begun { D.begun device.old ≡ true }
    requires room { length received.old ≡ RECEIVE_BUFFER }
    ensures received { IfOk result (λ event. WhereTold (D.told device.old) (D.told device.new)
        (HasReceived (settings_of config.now) C.format wait_ms event)) }
    ensures comes { IfOk result (λ event. IfSome event (IsEventOf config.now)) }
    ensures cut_off { OnErr result (WhereTold (D.told device.old) (D.told device.new) (HasCutOff wait_ms)) }
    ensures of_a_turn { IfErr result IsOfATurn }
    ensures causes { Counts (D.faults device.old) (D.faults device.new) result }
    ensures begun { D.begun device.new ≡ true }
{
    match device.receive(wait_ms, received) {
        Received::Datagram { from, len } => Ok(hear(alloc, config, from, &received[..len])?),
        Received::Quiet => Ok(None),
        Received::Failed => Err(NodeFault::Receive),
        Received::Memory => Err(NodeFault::Memory),
    }
}

// Begins a turn, and answers the event that it has, if it has one.
pub(crate) fn await_event<D: Device, S: Drop, C: Commands, O: Wire>(
    alloc: Global,
    device: &mut D,
    config: &Config,
    node: &mut Shipped<S, C, O>,
    received: &mut [u8],
) -> Result<Option<Event<C>>, NodeFault>
    requires begun { D.begun device.old ≡ true }
    requires room { length received.old ≡ RECEIVE_BUFFER }
    ensures node { node.new.replica ≡ record node.old.replica { time = node.new.replica.time } }
    ensures heard { IfOk result (λ event. StillTold 1 (D.told device.old) (D.told device.new)
        (HasHeard S (settings_of config.now) C.format O.format (view_of node.old.replica) node.new.replica.time event)) }
    ensures comes { IfOk result (λ event. IfSome event (IsEventOf config.now)) }
    ensures stopped { OnErr result (StillTold 1 (D.told device.old) (D.told device.new)
        (HasStoppedHearing S (settings_of config.now) C.format O.format (view_of node.old.replica))) }
    ensures tells { TellsOn 1 (D.told device.old) (D.told device.new) }
    ensures of_a_turn { IfErr result IsOfATurn }
    ensures causes { Counts (D.faults device.old) (D.faults device.new) result }
    ensures begun { D.begun device.new ≡ true }
{
    let now = device.now();
    match node.wait(now) {
        Due::Timeout => Ok(Some(Event::Tick)),
        Due::Wait(ms) => listen(alloc, device, config, ms, received),
    }
}
