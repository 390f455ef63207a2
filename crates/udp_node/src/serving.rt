ghost use Rattle.std.specs.Prelude.{◌≡◌, ◌≢◌, ◌≤◌, ◌+◌, length, true, IfErr, IfOk, IfSome, OnErr, OnOk};
ghost use Rattle.node_acts.specs.Stores.{Holds, Knows};
ghost use Rattle.node_body.specs.Bodies.{VoteAmong};
ghost use Rattle.node_config.specs.Outcomes.{Fits};
ghost use Rattle.node_config.specs.declared.limits.TheConstants.{MAX_CLIENTS};
ghost use Rattle.node_core.specs.Replicas.{IsReady, kept_of, who_of};
ghost use Rattle.node_device.specs.Telling.{TellsOn, WhereTold};
ghost use Rattle.node_state.specs.Calls.{IsNodeOf};
ghost use Rattle.udp_node.specs.Causes.{Counts, CountsRun, IsOfATurn};
ghost use Rattle.udp_node.specs.Serving.{EndsWith, Halted, HaltedEach, HasOpened, HasServed, Meets, OpeningEnds, Served, StillTold};
ghost use Rattle.udp_node.specs.Serving.{Went, WentEach, found_in, refusal_in};
ghost use Rattle.udp_node.specs.Stacks.{EndedOn, ServedOn, refused_areas};

use crate::NodeFault;
use crate::room::Room;
use crate::turning::turn;
use kv_machine::{KvCmd, KvMachine, KvOut, KvState};
use lock_table::{TableCmd, TableMachine, TableOut, TableState};
use node_body::{Commands, Who};
use node_config::Config;
use node_core::Shipped;
use node_device::Device;
use node_state::{Opened, Store, open};
use raft_types::{Entries, Kept};
use raft_xform::Raft;
use std::alloc::Global;
use vst_base::{Machine, StackId};
use wire_messages::Wire;

/// How many turns a node takes at most.
pub const MAX_TURNS: u32 = 1_000_000_000;

// Opens the areas of a node, and answers what it knows of them and what they hold.
fn open_areas<D: Device, C: Commands>(
    alloc: Global,
    device: &mut D,
    config: &Config,
) -> Result<(Store, Kept<C>), NodeFault>
    requires begun { D.begun device.old ≡ true }
    requires fits { Fits config.now.me config.now }
    requires stack { config.now.stack ≡ C.stack }
    ensures of { IfOk result (λ p. IsNodeOf C.stack p.0.who) }
    ensures who { IfOk result (λ p. p.0.who ≡ who_of config.now) }
    ensures knows { IfOk result (λ p. Knows p.0 p.1) }
    ensures voted { IfOk result (λ p. VoteAmong p.0.who.nodes p.1.voted) }
    ensures holds { IfOk result (λ p. IfSome (D.told device.new) (λ told.
        Holds C.stack C.format p.0 p.1 told.disk)) }
    ensures opened { IfOk result (λ p. WhereTold (D.told device.old) (D.told device.new)
        (HasOpened C.stack config.now C.format p.0 p.1)) }
    ensures ended { IfErr result (λ fault. WhereTold (D.told device.old) (D.told device.new)
        (OpeningEnds C.stack config.now C.format fault)) }
    ensures areas { IfSome (D.told device.old) (λ before.
        Meets (refusal_in (found_in C.stack config.now C.format before)) result) }
    ensures causes { Counts (D.faults device.old) (D.faults device.new) result }
    ensures begun { D.begun device.new ≡ true }
{
    let who = Who {
        stack: config.stack,
        me: config.me,
        nodes: config.peers.as_slice().len() as u8,
        name: config.cluster,
    };
    match open::<D, C>(alloc, device, &who)? {
        Opened::Fresh(store) => {
            let first = Kept::new(0, None, Entries::new(Vec::new(alloc)));
            Ok((store, first))
        }
        Opened::Held(store, kept) => Ok((store, kept)),
    }
}

// Opens the areas of a node, and reads its clock for the first time.
fn start<D: Device, S: Drop, C: Commands, O: Wire, M: Machine<State = S, Cmd = C, Out = O>>(
    alloc: Global,
    device: &mut D,
    raft: &Raft<M>,
    config: &Config,
) -> Result<Shipped<S, C, O>, NodeFault>
    requires begun { D.begun device.old ≡ true }
    requires fits { Fits config.now.me config.now }
    requires stack { config.now.stack ≡ C.stack }
    requires nodes { raft.now.nodes ≡ length config.now.peers }
    ensures ready { IfOk result (λ node. IsReady C.stack node.replica) }
    ensures who { IfOk result (λ node. node.replica.store.who ≡ who_of config.now) }
    ensures holds { IfOk result (λ node. IfSome (D.told device.new) (λ told.
        Holds C.stack C.format node.replica.store (kept_of node.replica.state) told.disk)) }
    ensures served { IfOk result (λ node. StillTold 1 (D.told device.old) (D.told device.new)
        (Served C.stack config.now (M.meaning raft.now.machine) C.format O.format 0 node.replica)) }
    ensures ended { IfErr result (λ fault. StillTold 1 (D.told device.old) (D.told device.new)
        (EndsWith C.stack config.now (M.meaning raft.now.machine) C.format O.format fault 0)) }
    ensures tells { TellsOn 1 (D.told device.old) (D.told device.new) }
    ensures areas { IfSome (D.told device.old) (λ before.
        Meets (refusal_in (found_in C.stack config.now C.format before)) result) }
    ensures causes { CountsRun (D.faults device.old) (D.faults device.new) result }
    ensures begun { D.begun device.new ≡ true }
{
    let (store, kept) = open_areas::<D, C>(alloc, device, config)?;
    let now = device.now();
    let node = Shipped::start(alloc, raft, config, store, kept, now)?;
    Ok(node)
}

// Takes so many turns.
fn take_turns<D: Device, S: Drop, C: Commands, O: Wire, M: Machine<State = S, Cmd = C, Out = O>>(
    alloc: Global,
    device: &mut D,
    raft: &Raft<M>,
    config: &Config,
    node: Shipped<S, C, O>,
    turns: u32,
) -> Result<Shipped<S, C, O>, NodeFault>
    requires begun { D.begun device.old ≡ true }
    requires ready { IsReady C.stack node.replica }
    requires who { node.replica.store.who ≡ who_of config.now }
    requires nodes { raft.now.nodes ≡ length config.now.peers }
    requires clients { length config.now.clients ≤ MAX_CLIENTS }
    requires holds { IfSome (D.told device.old) (λ told.
        Holds C.stack C.format node.replica.store (kept_of node.replica.state) told.disk) }
    ensures went { IfOk result (λ next. StillTold turns (D.told device.old) (D.told device.new)
        (Went C.stack config.now (M.meaning raft.now.machine) C.format O.format node.replica turns next.replica)) }
    ensures each { IfOk result (λ next. StillTold turns (D.told device.old) (D.told device.new)
        (WentEach C.stack config.now (M.meaning raft.now.machine) C.format O.format turns node.replica next.replica)) }
    ensures halted { OnErr result (StillTold turns (D.told device.old) (D.told device.new)
        (Halted C.stack config.now (M.meaning raft.now.machine) C.format O.format node.replica turns)) }
    ensures halted_each { OnErr result (StillTold turns (D.told device.old) (D.told device.new)
        (HaltedEach C.stack config.now (M.meaning raft.now.machine) C.format O.format turns node.replica)) }
    ensures tells { TellsOn turns (D.told device.old) (D.told device.new) }
    ensures of_a_turn { IfErr result IsOfATurn }
    ensures causes { CountsRun (D.faults device.old) (D.faults device.new) result }
    ensures begun { D.begun device.new ≡ true }
{
    let mut room = Room::new(alloc)?;
    let mut node = node;
    for _ in 0..turns {
        node = turn::<D, S, C, O, M>(alloc, device, raft, config, node, &mut room)?;
    }
    Ok(node)
}

// The run of a node of one stack.
fn serve_stack<D: Device, S: Drop, C: Commands, O: Wire, M: Machine<State = S, Cmd = C, Out = O>>(
    alloc: Global,
    device: &mut D,
    machine: M,
    config: &Config,
    turns: u32,
) -> Result<(), NodeFault>
    requires begun { D.begun device.old ≡ true }
    requires fits { Fits config.now.me config.now }
    requires stack { config.now.stack ≡ C.stack }
    ensures served { OnOk result (StillTold (1 + turns) (D.told device.old) (D.told device.new)
        (HasServed C.stack config.now (M.meaning machine) C.format O.format turns)) }
    ensures ended { IfErr result (λ fault. StillTold (1 + turns) (D.told device.old) (D.told device.new)
        (EndsWith C.stack config.now (M.meaning machine) C.format O.format fault turns)) }
    ensures tells { TellsOn (1 + turns) (D.told device.old) (D.told device.new) }
    ensures areas { IfSome (D.told device.old) (λ before.
        Meets (refusal_in (found_in C.stack config.now C.format before)) result) }
    ensures causes { CountsRun (D.faults device.old) (D.faults device.new) result }
    ensures begun { D.begun device.new ≡ true }
{
    let raft = Raft::new(machine, config.peers.as_slice().len() as u8);
    let node = start::<D, S, C, O, M>(alloc, device, &raft, config)?;
    take_turns::<D, S, C, O, M>(alloc, device, &raft, config, node, turns)?;
    Ok(())
}

/// Runs a node for so many turns over a device that has begun. `Ok` comes exactly after the last of them, where the device tells to the
/// end. Its areas are refused exactly where they are not this node's own, unless a store call fails or memory is wanted before that is
/// known.
pub fn serve<D: Device>(
    alloc: Global,
    device: &mut D,
    config: &Config,
    turns: u32,
) -> Result<(), NodeFault>
    requires begun { D.begun device.old ≡ true }
    requires fits { Fits config.now.me config.now }
    requires some { 1 ≤ turns }
    requires in_range { turns ≤ MAX_TURNS }
    ensures served { OnOk result (StillTold (1 + turns) (D.told device.old) (D.told device.new)
        (ServedOn config.now.stack config.now turns)) }
    ensures ended { IfErr result (λ fault. StillTold (1 + turns) (D.told device.old) (D.told device.new)
        (EndedOn config.now.stack config.now fault turns)) }

    // The clock is read once at its start, and once a turn.
    ensures tells { TellsOn (1 + turns) (D.told device.old) (D.told device.new) }

    ensures areas { IfSome (D.told device.old) (λ before. Meets (refused_areas config.now.stack config.now before) result) }
    ensures causes { CountsRun (D.faults device.old) (D.faults device.new) result }
    ensures begun { D.begun device.new ≡ true }
{
    match config.stack {
        StackId::TableRaft => serve_stack::<D, TableState, TableCmd, TableOut, TableMachine>(
            alloc,
            device,
            TableMachine,
            config,
            turns,
        ),
        _ => serve_stack::<D, KvState, KvCmd, KvOut, KvMachine>(
            alloc, device, KvMachine, config, turns,
        ),
    }
}
