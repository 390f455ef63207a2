ghost use Rattle.std.specs.Prelude.{◌≡◌, ◌≢◌, ◌≤◌, length, true, vec_len, IfErr, IfOk, IfSome, OnErr, OnOk};
ghost use Rattle.node_acts.specs.Stores.{Holds};
ghost use Rattle.node_datagrams.specs.Configured.{IsEventOf};
ghost use Rattle.node_device.specs.Telling.{TellsOn, WhereTold};
ghost use Rattle.node_device.specs.declared.limits.TheConstants.{RECEIVE_BUFFER};
ghost use Rattle.node_config.specs.declared.limits.TheConstants.{MAX_CLIENTS};
ghost use Rattle.node_core.specs.Replicas.{IsReady, kept_of, who_of};
ghost use Rattle.udp_node.specs.Acting.{Acted, ActedInPart, next_replica};
ghost use Rattle.udp_node.specs.Causes.{CountsRun, IsOfATurn};
ghost use Rattle.udp_node.specs.Serving.{Halted, StillTold, Went};

use crate::NodeFault;
use crate::listening::await_event;
use crate::room::Room;
use node_body::Commands;
use node_config::Config;
use node_core::Shipped;
use node_device::Device;
use node_run::Event;
use raft_xform::Raft;
use std::alloc::Global;
use vst_base::Machine;
use wire_messages::Wire;

// Takes an event, saves what the node keeps after it, and ships what it sends.
fn act<D: Device, S: Drop, C: Commands, O: Wire, M: Machine<State = S, Cmd = C, Out = O>>(
    alloc: Global,
    device: &mut D,
    raft: &Raft<M>,
    config: &Config,
    node: Shipped<S, C, O>,
    event: Event<C>,
    datagram: &mut Vec<u8>,
) -> Result<Shipped<S, C, O>, NodeFault>
    requires begun { D.begun device.old ≡ true }
    requires ready { IsReady C.stack node.replica }
    requires who { node.replica.store.who ≡ who_of config.now }
    requires nodes { raft.now.nodes ≡ length config.now.peers }
    requires clients { length config.now.clients ≤ MAX_CLIENTS }
    requires event { IsEventOf config.now event }
    requires holds { IfSome (D.told device.old) (λ told.
        Holds C.stack C.format node.replica.store (kept_of node.replica.state) told.disk) }
    ensures ready { IfOk result (λ next. IsReady C.stack next.replica) }
    ensures next { IfOk result (λ next. next.replica ≡ next_replica C.stack config.now (M.meaning raft.now.machine) C.format O.format
        node.replica event) }
    ensures holds { IfOk result (λ next. IfSome (D.told device.new) (λ told.
        Holds C.stack C.format next.replica.store (kept_of next.replica.state) told.disk)) }
    ensures acted { OnOk result (WhereTold (D.told device.old) (D.told device.new)
        (Acted C.stack config.now (M.meaning raft.now.machine) C.format O.format node.replica event)) }
    ensures in_part { OnErr result (WhereTold (D.told device.old) (D.told device.new)
        (ActedInPart C.stack config.now (M.meaning raft.now.machine) C.format O.format node.replica event)) }
    ensures of_a_turn { IfErr result IsOfATurn }
    ensures causes { CountsRun (D.faults device.old) (D.faults device.new) result }
    ensures begun { D.begun device.new ≡ true }
{
    let taken = node.take(alloc, raft, config, event)?;
    let saved = taken.save(alloc, device)?;
    Ok(saved.ship(config, device, datagram)?)
}

// One turn of a node.
pub(crate) fn turn<
    D: Device,
    S: Drop,
    C: Commands,
    O: Wire,
    M: Machine<State = S, Cmd = C, Out = O>,
>(
    alloc: Global,
    device: &mut D,
    raft: &Raft<M>,
    config: &Config,
    node: Shipped<S, C, O>,
    room: &mut Room,
) -> Result<Shipped<S, C, O>, NodeFault>
    requires begun { D.begun device.old ≡ true }
    requires ready { IsReady C.stack node.replica }
    requires who { node.replica.store.who ≡ who_of config.now }
    requires nodes { raft.now.nodes ≡ length config.now.peers }
    requires clients { length config.now.clients ≤ MAX_CLIENTS }
    requires room { vec_len room.old.received ≡ RECEIVE_BUFFER }
    requires holds { IfSome (D.told device.old) (λ told.
        Holds C.stack C.format node.replica.store (kept_of node.replica.state) told.disk) }
    ensures ready { IfOk result (λ next. IsReady C.stack next.replica) }
    ensures who { IfOk result (λ next. next.replica.store.who ≡ who_of config.now) }
    ensures holds { IfOk result (λ next. IfSome (D.told device.new) (λ told.
        Holds C.stack C.format next.replica.store (kept_of next.replica.state) told.disk)) }
    ensures went { IfOk result (λ next. StillTold 1 (D.told device.old) (D.told device.new)
        (Went C.stack config.now (M.meaning raft.now.machine) C.format O.format node.replica 1 next.replica)) }
    ensures halted { OnErr result (StillTold 1 (D.told device.old) (D.told device.new)
        (Halted C.stack config.now (M.meaning raft.now.machine) C.format O.format node.replica 1)) }
    ensures tells { TellsOn 1 (D.told device.old) (D.told device.new) }
    ensures room { vec_len room.new.received ≡ RECEIVE_BUFFER }
    ensures of_a_turn { IfErr result IsOfATurn }
    ensures causes { CountsRun (D.faults device.old) (D.faults device.new) result }
    ensures begun { D.begun device.new ≡ true }
{
    let mut node = node;
    match await_event(alloc, device, config, &mut node, &mut room.received)? {
        Some(event) => act::<D, S, C, O, M>(
            alloc,
            device,
            raft,
            config,
            node,
            event,
            &mut room.datagram,
        ),
        None => Ok(node),
    }
}
