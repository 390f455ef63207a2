ghost use Rattle.std.specs.Prelude.{◌≡◌, ◌≤◌, [], length, IfOk, OnOk};
ghost use Rattle.handler_trait.specs.declared.handlers.TheConstants.{MAX_SENDS};
ghost use Rattle.node_acts.specs.Stores.{Continues, Knows};
ghost use Rattle.node_body.specs.Bodies.{VoteAmong};
ghost use Rattle.node_core.specs.Replicas.{IsReplica, IsReady, IsTaken, after_event, effect_on, kept_of, starting, who_of};
ghost use Rattle.node_datagrams.specs.Configured.{IsEventOf, settings_of};
ghost use Rattle.node_run.specs.Runs.{deadline_after};
ghost use Rattle.node_run.specs.Settings.{due};
ghost use Rattle.node_state.specs.Calls.{IsNodeOf};

use crate::Replica;
use crate::taken::Taken;
use handler_trait::{Effects, Handlers, MAX_SENDS, Rebootable};
use node_body::Commands;
use node_config::Config;
use node_growth::left_by;
use node_run::{Due, Event};
use node_state::Store;
use raft_types::{Kept, RaftMsg, RaftOut};
use raft_xform::Raft;
use std::alloc::{AllocError, Global};
use vst_base::{Machine, Node};
use wire_messages::Wire;

/// How long a node waits for a datagram at most, in milliseconds.
pub const MAX_WAIT_MS: u32 = 60_000;

/// A node between two turns: what its last event sends has gone out, or was lost.
#[derive(Drop)]
pub struct Shipped<S, C, O> {
    pub(crate) replica: Replica<S, C, O>,
    pub(crate) effects: Effects<RaftOut<O>, RaftMsg<C>>,
}

impl<S: Drop, C: Commands, O: Wire> Shipped<S, C, O> {
    /// A node that starts at this time from what its areas hold.
    pub fn start<M: Machine<State = S, Cmd = C, Out = O>>(
        alloc: Global,
        raft: &Raft<M>,
        config: &Config,
        store: Store,
        kept: Kept<C>,
        now: u64,
    ) -> Result<Self, AllocError>
        requires of { IsNodeOf C.stack store.who }
        requires who { store.who ≡ who_of config.now }
        requires nodes { raft.now.nodes ≡ length config.now.peers }
        requires knows { Knows store kept }
        requires voted { VoteAmong store.who.nodes kept.voted }
        ensures replica { IfOk result (λ node. node.replica ≡ starting config.now (M.meaning raft.now.machine) store kept now) }
        ensures ready { IfOk result (λ node. IsReady C.stack node.replica) }
    {
        let me = Node::new(config.me, raft.nodes()).unwrap();
        Ok(Shipped {
            replica: Replica {
                state: raft.reboot(alloc, me, kept)?,
                deadline: now.saturating_add(u64::from(config.election_ms)),
                time: now,
                store,
            },
            effects: Effects::new(alloc),
        })
    }

    /// Begins a turn at this time, in milliseconds of the device's clock, and answers what it begins with.
    pub fn wait(&mut self, now: u64) -> Due
        ensures due { result ≡ due self.old.replica.deadline now }
        ensures replica { self.new.replica ≡ record self.old.replica { time = now } }
    {
        self.replica.time = now;
        if self.replica.deadline <= now {
            return Due::Timeout;
        }
        let left = self.replica.deadline - now;
        Due::Wait(left.min(u64::from(MAX_WAIT_MS)) as u32)
    }

    // The node's handler takes the event.
    fn happen<M: Machine<State = S, Cmd = C, Out = O>>(
        &mut self,
        alloc: Global,
        raft: &Raft<M>,
        config: &Config,
        event: &Event<C>,
    ) -> Result<(), AllocError>
        requires is { IsReplica C.stack self.old.replica }
        requires who { self.old.replica.store.who ≡ who_of config.now }
        requires nodes { raft.now.nodes ≡ length config.now.peers }
        requires event { IsEventOf config.now event.now }
        requires no_outputs { self.old.effects.outputs ≡ [] }
        requires no_sends { self.old.effects.sends ≡ [] }
        requires room { MAX_SENDS ≤ self.old.effects.send_places }
        ensures state { OnOk result (self.new.replica ≡ record self.old.replica {
          state = (effect_on config.now (M.meaning raft.now.machine) C.format O.format self.old.replica event.now).state;
        }) }
        ensures outputs { OnOk result (self.new.effects.outputs
            ≡ (effect_on config.now (M.meaning raft.now.machine) C.format O.format self.old.replica event.now).outputs) }
        ensures sends { OnOk result (self.new.effects.sends
            ≡ (effect_on config.now (M.meaning raft.now.machine) C.format O.format self.old.replica event.now).sends) }
        ensures is { OnOk result (IsReplica C.stack self.new.replica) }
    {
        let me = Node::new(config.me, raft.nodes()).unwrap();
        let state = &mut self.replica.state;
        match event {
            Event::Tick => raft.timeout(alloc, me, state, &mut self.effects),
            Event::Peer { from, message } => {
                raft.message(alloc, me, state, *from, message, &mut self.effects)
            }
            Event::Asked(request) => raft.input(alloc, me, state, request, &mut self.effects),
        }
    }

    // When the node's timer is to fire after this event.
    fn deadline_after<M: Machine<State = S, Cmd = C, Out = O>>(
        &self,
        raft: &Raft<M>,
        config: &Config,
        event: &Event<C>,
    ) -> u64
        ensures { result ≡ deadline_after (settings_of config.now) (M.meaning raft.now.machine) C.format O.format event.now
            self.now.replica.time self.now.replica.deadline self.now.replica.state }
    {
        if let Event::Asked(_) = event {
            return self.replica.deadline;
        }
        let period = if raft.leads(&self.replica.state) {
            config.heartbeat_ms
        } else {
            config.election_ms
        };
        self.replica.time.saturating_add(u64::from(period))
    }

    /// Takes an event, which happens in the turn that began last. An `Err` gives the node up.
    pub fn take<M: Machine<State = S, Cmd = C, Out = O>>(
        mut self,
        alloc: Global,
        raft: &Raft<M>,
        config: &Config,
        event: Event<C>,
    ) -> Result<Taken<S, C, O>, AllocError>
        requires ready { IsReady C.stack self.replica }
        requires who { self.replica.store.who ≡ who_of config.now }
        requires nodes { raft.now.nodes ≡ length config.now.peers }
        requires event { IsEventOf config.now event }
        ensures replica { IfOk result (λ taken. taken.replica
            ≡ after_event config.now (M.meaning raft.now.machine) C.format O.format self.replica event) }
        ensures outputs { IfOk result (λ taken. taken.effects.outputs
            ≡ (effect_on config.now (M.meaning raft.now.machine) C.format O.format self.replica event).outputs) }
        ensures sends { IfOk result (λ taken. taken.effects.sends
            ≡ (effect_on config.now (M.meaning raft.now.machine) C.format O.format self.replica event).sends) }
        ensures taken { IfOk result (λ taken. IsTaken C.stack taken) }

        // What the areas hold, this state continues.
        ensures continues { IfOk result (λ taken.
            Continues self.replica.store (kept_of self.replica.state) (kept_of taken.replica.state)) }
    {
        let old = self.replica.state.log().len();
        self.effects.clear();
        self.effects.reserve(0, MAX_SENDS)?;
        self.happen(alloc, raft, config, &event)?;
        let same = left_by(&event, old, self.replica.state.log().len());
        let deadline = self.deadline_after(raft, config, &event);
        let Shipped {
            mut replica,
            effects,
        } = self;
        replica.deadline = deadline;
        Ok(Taken {
            replica,
            effects,
            same,
        })
    }
}
