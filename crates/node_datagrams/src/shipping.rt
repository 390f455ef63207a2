ghost use Rattle.std.specs.Prelude.{◌≡◌, ◌≤◌, ◌++◌, ◌∷◌, [], true, length, OnErr, OnOk};
ghost use Rattle.node_config.specs.declared.limits.TheConstants.{MAX_CLIENTS};
ghost use Rattle.node_datagrams.specs.Configured.{settings_of};
ghost use Rattle.node_datagrams.specs.Saying.{HasBegunToSay, HasSaid, SendsOnly};
ghost use Rattle.node_device.specs.Telling.{WhereTold};
ghost use Rattle.node_run.specs.Events.{packet_to, replied, reply_of, reply_to, sent};

use crate::saying::client_of;
use crate::{address_of_client, address_of_node, put_packet, put_reply};
use node_config::Config;
use node_device::{Device, Shipped};
use outside::Address;
use raft_types::{RaftMsg, RaftOut};
use std::alloc::AllocError;
use vst_base::Node;
use wire_messages::Wire;

// Sends a datagram. That it fails is a loss as any other, and an `Err` that memory was wanted and nothing done.
fn send_to<D: Device>(device: &mut D, to: Address, bytes: &[u8]) -> Result<(), AllocError>
    requires { D.begun device.old ≡ true }
    ensures said { OnOk result (WhereTold (D.told device.old) (D.told device.new) (HasSaid ((to, bytes.now) ∷ []))) }
    ensures nothing { OnErr result (D.told device.new ≡ D.told device.old) }
    ensures counts { SendsOnly (D.faults device.old) (D.faults device.new) }
    ensures begun { D.begun device.new ≡ true }
{
    match device.send(to, bytes) {
        Shipped::Sent | Shipped::Failed => Ok(()),
        Shipped::Memory => Err(AllocError),
    }
}

// Sends a packet, if there is such a node. Where memory is wanted nothing is sent.
fn ship_packet<D: Device, C: Wire>(
    device: &mut D,
    config: &Config,
    to: Node,
    message: &RaftMsg<C>,
    bytes: &mut Vec<u8>,
) -> Result<(), AllocError>
    requires { D.begun device.old ≡ true }
    ensures said { OnOk result (WhereTold (D.told device.old) (D.told device.new) (HasSaid
        (packet_to (settings_of config.now) C.format (to, message.now)))) }
    ensures nothing { OnErr result (D.told device.new ≡ D.told device.old) }
    ensures counts { SendsOnly (D.faults device.old) (D.faults device.new) }
    ensures begun { D.begun device.new ≡ true }
{
    let Some(address) = address_of_node(config, to) else {
        return Ok(());
    };
    bytes.clear();
    put_packet(bytes, config, to, message)?;
    send_to(device, address, bytes)
}

// Sends what an output tells its client, if there is such a slot. Where memory is wanted nothing is sent.
fn ship_reply<D: Device, O: Wire>(
    device: &mut D,
    config: &Config,
    output: &RaftOut<O>,
    bytes: &mut Vec<u8>,
) -> Result<(), AllocError>
    requires begun { D.begun device.old ≡ true }
    requires clients { length config.now.clients ≤ MAX_CLIENTS }
    ensures said { OnOk result (WhereTold (D.told device.old) (D.told device.new) (HasSaid
        (reply_to (settings_of config.now) O.format (reply_of output.now)))) }
    ensures nothing { OnErr result (D.told device.new ≡ D.told device.old) }
    ensures counts { SendsOnly (D.faults device.old) (D.faults device.new) }
    ensures begun { D.begun device.new ≡ true }
{
    let Some(address) = address_of_client(config, client_of(output)) else {
        return Ok(());
    };
    bytes.clear();
    put_reply(bytes, config, output)?;
    send_to(device, address, bytes)
}

// Sends packets, in order.
fn ship_packets<D: Device, C: Wire>(
    device: &mut D,
    config: &Config,
    sends: &[(Node, RaftMsg<C>)],
    bytes: &mut Vec<u8>,
) -> Result<(), AllocError>
    requires { D.begun device.old ≡ true }
    ensures said { OnOk result (WhereTold (D.told device.old) (D.told device.new) (HasSaid
        (sent (settings_of config.now) C.format sends.now))) }
    ensures stopped { OnErr result (WhereTold (D.told device.old) (D.told device.new) (HasBegunToSay
        (sent (settings_of config.now) C.format sends.now))) }
    ensures counts { SendsOnly (D.faults device.old) (D.faults device.new) }
    ensures begun { D.begun device.new ≡ true }
{
    for (to, message) in sends {
        ship_packet(device, config, *to, message, bytes)?;
    }
    Ok(())
}

// Sends what outputs tell their clients, in order.
fn ship_replies<D: Device, O: Wire>(
    device: &mut D,
    config: &Config,
    outputs: &[RaftOut<O>],
    bytes: &mut Vec<u8>,
) -> Result<(), AllocError>
    requires begun { D.begun device.old ≡ true }
    requires clients { length config.now.clients ≤ MAX_CLIENTS }
    ensures said { OnOk result (WhereTold (D.told device.old) (D.told device.new) (HasSaid
        (replied (settings_of config.now) O.format outputs.now))) }
    ensures stopped { OnErr result (WhereTold (D.told device.old) (D.told device.new) (HasBegunToSay
        (replied (settings_of config.now) O.format outputs.now))) }
    ensures counts { SendsOnly (D.faults device.old) (D.faults device.new) }
    ensures begun { D.begun device.new ≡ true }
{
    for output in outputs {
        ship_reply(device, config, output, bytes)?;
    }
    Ok(())
}

/// Sends what an event makes: all packets in order, and then all outputs in order. A client without a slot is told nothing, and a send
/// that fails is a loss as any other. An `Err` says that memory was wanted: then a front of the datagrams went out or was lost.
/// `bytes` is room for one datagram, whatever it holds.
#[tactic(auto, using(crate::proofs::Sayings::says_next, crate::proofs::Sayings::stops_next))]
pub fn ship<D: Device, C: Wire, O: Wire>(
    device: &mut D,
    config: &Config,
    sends: &[(Node, RaftMsg<C>)],
    outputs: &[RaftOut<O>],
    bytes: &mut Vec<u8>,
) -> Result<(), AllocError>
    requires begun { D.begun device.old ≡ true }
    requires clients { length config.now.clients ≤ MAX_CLIENTS }
    ensures said { OnOk result (WhereTold (D.told device.old) (D.told device.new) (HasSaid
        (sent (settings_of config.now) C.format sends.now ++ replied (settings_of config.now) O.format outputs.now))) }
    ensures stopped { OnErr result (WhereTold (D.told device.old) (D.told device.new) (HasBegunToSay
        (sent (settings_of config.now) C.format sends.now ++ replied (settings_of config.now) O.format outputs.now))) }
    ensures counts { SendsOnly (D.faults device.old) (D.faults device.new) }
    ensures begun { D.begun device.new ≡ true }
{
    ship_packets(device, config, sends, bytes)?;
    ship_replies(device, config, outputs, bytes)
}
