ghost use Rattle.std.specs.Prelude.{◌≡◌, ◌≢◌, ℕ, ◌+◌, ◌<◌, ◌≤◌, [], ◌++◌, length, IsTrue, is_some, IsOk, IfOk, IfErr, OnOk, OnErr, Some, None, Ok, Err, slice_get};
ghost use Rattle.net_semantics.specs.Worlds.{first_world, change_at, copies, ends, held};
ghost use Rattle.net_semantics.specs.Steps.{next, refusal_of, items_of, IsAnswer};
ghost use Rattle.net_semantics.specs.Runs.{no_recovery};
ghost use Rattle.net_semantics.specs.Shown.{ForShown, IsSoundBy, ShowsBy};
ghost use Rattle.net_semantics.specs.Held.{held_copies};
ghost use Rattle.net_semantics.specs.Order.{IsAhead, IsFirst, LanesFollow};
ghost use Rattle.net_semantics.specs.Taking.{AnswersBy, GrowsBy, TakesBy};
ghost use Rattle.vst_base.specs.Nets.{has_kind, keeps_order, stops_no_node};
ghost use Rattle.vst_base.specs.declared.step.TheConstants.{MAX_STEPS};

use crate::events::{first_states, input_event, message_event, publish, timeout_event};
use crate::packets::Packets;
use crate::refusals::{existing_node, input_node};
use crate::{StepFault, Trace};
use handler_trait::{Effects, Handlers};
use lanes::Lanes;
use std::alloc::{AllocError, Global};
use std::marker::Model;
use vst_base::{Item, Net, Node, Step, StepKind, StepRefusal};

/// A network on which no node stops: inputs alone, a bag of packets, or one on which packets keep their order, are copied, or
/// are lost too.
#[derive(Drop)]
pub struct World<H: Handlers> {
    alloc: Global,
    handlers: H,
    net: Net,
    states: Vec<H::State>,
    packets: Packets<H::Msg>,
    // Where the network keeps the order of packets.
    lanes: Option<Lanes>,
    trace: Trace<H::Input, H::Output>,
    effects: Effects<H::Output, H::Msg>,
    taken: u32,
}

impl<H: Handlers> Model for World<H> {
    ghost use Rattle.std.specs.Prelude.{◌≡◌, is_some, true};
    ghost use Rattle.vst_base.specs.Nets.{keeps_order, stops_no_node};
    ghost use Rattle.net_semantics.specs.Order.{LanesFollow, all_ends};
    ghost use Rattle.net_semantics.specs.Shown.{WorldView};

    ghost Value = { WorldView H H.State H.Input H.Output H.Msg };

    ghost view = { λ w. record {
      handlers = w.handlers;
      net = w.net;
      states = w.states.items;
      packets = w.packets;
      trace = w.trace;
      taken = w.taken;
    } };

    ghost invariant = { λ w. (stops_no_node w.net ≡ true) × (is_some w.lanes ≡ keeps_order w.net)
        × LanesFollow w.lanes (all_ends w.packets) };
}

// Lanes of no packets, where the network keeps their order. It takes no memory.
fn first_lanes(alloc: Global, net: Net) -> Option<Lanes>
    ensures kept { is_some result ≡ keeps_order net }
    ensures follow { LanesFollow result [] }
{
    if net.keeps_order() {
        Some(Lanes::new(alloc))
    } else {
        None
    }
}

impl<H: Handlers> World<H> {
    /// The first world of these handlers, on a network that stops no node. Where a network has inputs alone there is one node.
    pub fn new(alloc: Global, handlers: H, net: Net) -> Result<Self, AllocError>
        requires net { IsTrue (stops_no_node net) }
        requires alone { net ≡ Net.One → (H.meaning handlers).nodes ≡ 1 }
        ensures handlers { IfOk result (λ world. world.handlers ≡ handlers) }
        ensures net { IfOk result (λ world. world.net ≡ net) }
        ensures first { IfOk result (λ world. ShowsBy H.Handlers world (first_world (H.meaning handlers))) }
        ensures trace { IfOk result (λ world. world.trace ≡ []) }
        ensures taken { IfOk result (λ world. world.taken ≡ 0) }
        ensures sound { IfOk result (IsSoundBy H.Handlers) }
    {
        let states = first_states(alloc, &handlers)?;
        Ok(World {
            alloc,
            handlers,
            net,
            states,
            packets: Packets::new(alloc),
            lanes: first_lanes(alloc, net),
            trace: Trace::new(alloc),
            effects: Effects::new(alloc),
            taken: 0,
        })
    }

    /// Takes one step, or says why not: the first refusal that applies. A refused step changes nothing.
    /// After want of memory the world is given up.
    pub fn step(&mut self, step: &Step<H::Input>) -> Result<(), StepFault>
        requires sound { IsSoundBy H.Handlers self.old }
        requires steps { self.old.taken < MAX_STEPS }
        ensures refused { ForShown H.Handlers self.old (λ w.
            IsAnswer result (refusal_of self.old.net (H.meaning self.old.handlers) w step.now)) }
        ensures unchanged { IfErr result (λ why. why ≢ StepFault.Memory → self.new ≡ self.old) }
        ensures next { OnOk result (ForShown H.Handlers self.old (λ w.
            ShowsBy H.Handlers self.new (next (H.meaning self.old.handlers) no_recovery w step.now))) }
        ensures trace { OnOk result (ForShown H.Handlers self.old (λ w.
            self.new.trace ≡ self.old.trace ++ items_of (H.meaning self.old.handlers) w step.now)) }
        ensures trace_grows { OnOk result (GrowsBy (length self.old.trace) (length self.new.trace)) }
        ensures taken { OnOk result (self.new.taken ≡ self.old.taken + 1) }
        ensures handlers { self.new.handlers ≡ self.old.handlers }
        ensures net { self.new.net ≡ self.old.net }
        ensures sound { OnOk result (IsSoundBy H.Handlers self.new) }
        ensures dup_takes_no_memory { (k : ℕ) → step.now ≡ Step.Dup k → result ≢ Err StepFault.Memory }
        ensures lose_takes_no_memory { (k : ℕ) → step.now ≡ Step.Lose k → result ≢ Err StepFault.Memory }
    {
        if !self.net.has(step.kind()) {
            return Err(StepFault::Refused(StepRefusal::NotThisNet));
        }
        match step {
            Step::In(n, input) => self.take_input(*n, input),
            Step::Deliver(k) => self.take_deliver(*k),
            Step::Tick(n) => self.take_tick(*n),
            Step::Dup(k) => self.take_dup(*k),
            Step::Lose(k) => self.take_lose(*k),
            Step::Crash(_) | Step::Reboot(_) => unreachable!(),
        }
    }

    /// Its handlers.
    pub fn handlers(&self) -> &H
        ensures { result.now ≡ self.now.handlers }
    {
        &self.handlers
    }

    /// How many steps it has taken.
    pub fn taken(&self) -> u32
        ensures { result ≡ self.now.taken }
    {
        self.taken
    }

    /// Gives up the world for what clients saw since it was last cleared.
    pub fn into_trace(self) -> Trace<H::Input, H::Output>
        ensures { result ≡ self.trace }
    {
        self.trace
    }

    /// What clients saw since it was last cleared.
    pub fn trace(&self) -> &Trace<H::Input, H::Output>
        ensures { result.now ≡ self.now.trace }
    {
        &self.trace
    }

    /// Clears what clients saw so far: the trace begins anew. Nothing else changes.
    pub fn forget_trace(&mut self)
        ensures { self.new ≡ record self.old { trace = [] } }
    {
        self.trace.clear();
    }

    /// How many copies of packet `k` are in flight, none of one that was never sent.
    pub fn copies(&self, k: u32) -> u32
        ensures { ForShown H.Handlers self.now (λ w. result ≡ copies w k) }
    {
        self.packets.copies(k)
    }

    /// The source and the destination of packet `k`, and `None` exactly where it was never sent.
    pub fn ends(&self, k: u32) -> Option<(Node, Node)>
        ensures { ForShown H.Handlers self.now (λ w. result ≡ ends w k) }
    {
        self.packets.ends(k)
    }

    /// How many packets were sent.
    pub fn sent(&self) -> u32
        requires sound { IsSoundBy H.Handlers self.now }
        ensures { ForShown H.Handlers self.now (λ w. result ≡ length w.packets) }
    {
        self.packets.len() as u32
    }

    /// How many packets have a copy in flight.
    #[tactic(auto, using(crate::proofs::Counts::count_shown))]
    pub fn held(&self) -> u32
        requires sound { IsSoundBy H.Handlers self.now }
        ensures { ForShown H.Handlers self.now (λ w. result ≡ held w) }
    {
        self.packets.held() as u32
    }

    /// Whether node `n` is up: on these networks it always is.
    pub fn is_up(&self, n: Node) -> bool
        ensures { ForShown H.Handlers self.now (λ w. result ≡ w.is_up n) }
    {
        true
    }

    /// The state of node `n`.
    pub fn state(&self, n: Node) -> &H::State
        requires sound { IsSoundBy H.Handlers self.now }
        requires node { n < (H.meaning self.now.handlers).nodes }
        ensures { ForShown H.Handlers self.now (λ w. result.now ≡ w.state n) }
    {
        self.held_state(n)
    }

    /// The state that is held for node `n`.
    pub(crate) fn held_state(&self, n: Node) -> &H::State
        requires { n < length self.now.states }
        ensures { slice_get self.now.states n ≡ Some result.now }
    {
        &self.states[usize::from(n.index())]
    }
}

impl<H: Handlers> World<H> {
    // An input step.
    fn take_input(&mut self, n: u32, input: &H::Input) -> Result<(), StepFault>
        requires sound { IsSoundBy H.Handlers self.old }
        requires steps { self.old.taken < MAX_STEPS }
        requires kind { IsTrue (has_kind self.old.net StepKind.In) }
        ensures { AnswersBy H.Handlers (Step.In n input.now) self.old self.new result }
    {
        let node = input_node(&self.handlers, n)?;
        self.input(node, input)?;
        Ok(())
    }

    // A step of a timer.
    fn take_tick(&mut self, n: u32) -> Result<(), StepFault>
        requires sound { IsSoundBy H.Handlers self.old }
        requires steps { self.old.taken < MAX_STEPS }
        requires kind { IsTrue (has_kind self.old.net StepKind.Tick) }
        ensures { AnswersBy H.Handlers (Step.Tick n) self.old self.new result }
    {
        let node = existing_node(&self.handlers, n)?;
        self.tick(node)?;
        Ok(())
    }

    // A delivery.
    fn take_deliver(&mut self, k: u32) -> Result<(), StepFault>
        requires sound { IsSoundBy H.Handlers self.old }
        requires steps { self.old.taken < MAX_STEPS }
        requires kind { IsTrue (has_kind self.old.net StepKind.Deliver) }
        ensures { AnswersBy H.Handlers (Step.Deliver k) self.old self.new result }
    {
        let place = self.deliverable(k)?;
        self.deliver(place)?;
        Ok(())
    }

    // The place of packet `k`, or why no copy of it is delivered: it has to have one, and its turn to have come.
    fn deliverable(&self, k: u32) -> Result<usize, StepRefusal>
        requires sound { IsSoundBy H.Handlers self.now }
        requires kind { IsTrue (has_kind self.now.net StepKind.Deliver) }
        ensures ok { IfOk result (λ place. (place ≡ k) × (0 < held_copies (slice_get self.now.packets k))) }
        ensures first { OnOk result (IsTrue (keeps_order self.now.net) → IsFirst self.now.packets k) }
        ensures allowed { OnOk result (ForShown H.Handlers self.now (λ w.
            refusal_of self.now.net (H.meaning self.now.handlers) w (Step.Deliver k) ≡ None)) }
        ensures refused { IfErr result (λ why. ForShown H.Handlers self.now (λ w.
            refusal_of self.now.net (H.meaning self.now.handlers) w (Step.Deliver k) ≡ Some why)) }
    {
        let place = self.packets.in_flight(k)?;
        match self.in_turn(place) {
            Ok(()) => Ok(place),
            Err(why) => Err(why),
        }
    }

    // Packet `k` has to be the first in flight of its source and destination, where the network keeps their order.
    fn in_turn(&self, k: usize) -> Result<(), StepRefusal>
        requires sound { IsSoundBy H.Handlers self.now }
        requires copy { 0 < held_copies (slice_get self.now.packets k) }
        ensures first { OnOk result (IsTrue (keeps_order self.now.net) → IsFirst self.now.packets k) }
        ensures behind { OnErr result (IsTrue (keeps_order self.now.net) × (j : ℕ) × IsAhead self.now.packets j k) }
        ensures why { IfErr result (λ why. why ≡ StepRefusal.NotFirst) }
    {
        let Some(lanes) = &self.lanes else {
            return Ok(());
        };
        if self.packets.is_first(lanes, k) {
            Ok(())
        } else {
            Err(StepRefusal::NotFirst)
        }
    }

    // A step that copies a packet. It takes no memory.
    fn take_dup(&mut self, k: u32) -> Result<(), StepFault>
        requires sound { IsSoundBy H.Handlers self.old }
        requires steps { self.old.taken < MAX_STEPS }
        requires kind { IsTrue (has_kind self.old.net StepKind.Dup) }
        ensures answers { AnswersBy H.Handlers (Step.Dup k) self.old self.new result }
        ensures no_memory { result ≢ Err StepFault.Memory }
    {
        let place = self.packets.in_flight(k)?;
        self.packets.add_copy(place);
        self.taken += 1;
        Ok(())
    }

    // A step in which a copy of a packet is lost. It takes no memory.
    fn take_lose(&mut self, k: u32) -> Result<(), StepFault>
        requires sound { IsSoundBy H.Handlers self.old }
        requires steps { self.old.taken < MAX_STEPS }
        requires kind { IsTrue (has_kind self.old.net StepKind.Lose) }
        ensures answers { AnswersBy H.Handlers (Step.Lose k) self.old self.new result }
        ensures no_memory { result ≢ Err StepFault.Memory }
    {
        let place = self.packets.in_flight(k)?;
        self.packets.take_copy(place);
        self.taken += 1;
        Ok(())
    }

    // The node takes the input.
    fn input(&mut self, node: Node, input: &H::Input) -> Result<(), AllocError>
        requires sound { IsSoundBy H.Handlers self.old }
        requires steps { self.old.taken < MAX_STEPS }
        requires node { node < (H.meaning self.old.handlers).nodes }
        requires takes { IsTrue ((H.meaning self.old.handlers).takes_input node) }
        ensures takes { OnOk result (TakesBy H.Handlers (Step.In node input.now) self.old self.new) }
        ensures handlers { self.new.handlers ≡ self.old.handlers }
        ensures net { self.new.net ≡ self.old.net }
    {
        let copy = self.handlers.copy_input(self.alloc, input)?;
        self.input_and_show(node, input, copy)
    }

    // The node takes the input, and clients see this copy of it.
    fn input_and_show(
        &mut self,
        node: Node,
        input: &H::Input,
        copy: H::Input,
    ) -> Result<(), AllocError>
        requires sound { IsSoundBy H.Handlers self.old }
        requires steps { self.old.taken < MAX_STEPS }
        requires node { node < (H.meaning self.old.handlers).nodes }
        requires takes { IsTrue ((H.meaning self.old.handlers).takes_input node) }
        requires copy { copy ≡ input.now }
        ensures takes { OnOk result (TakesBy H.Handlers (Step.In node input.now) self.old self.new) }
        ensures handlers { self.new.handlers ≡ self.old.handlers }
        ensures net { self.new.net ≡ self.old.net }
    {
        input_event(
            &self.handlers,
            self.alloc,
            node,
            &mut self.states,
            input,
            &mut self.effects,
        )?;
        self.trace.push(Item::Input(node, copy))?;
        publish(
            self.alloc,
            node,
            &mut self.effects,
            &mut self.trace,
            &mut self.packets,
            &mut self.lanes,
        )?;
        self.taken += 1;
        Ok(())
    }

    // The node's timer fires.
    fn tick(&mut self, node: Node) -> Result<(), AllocError>
        requires sound { IsSoundBy H.Handlers self.old }
        requires steps { self.old.taken < MAX_STEPS }
        requires node { node < (H.meaning self.old.handlers).nodes }
        ensures takes { OnOk result (TakesBy H.Handlers (Step.Tick node) self.old self.new) }
        ensures handlers { self.new.handlers ≡ self.old.handlers }
        ensures net { self.new.net ≡ self.old.net }
    {
        timeout_event(
            &self.handlers,
            self.alloc,
            node,
            &mut self.states,
            &mut self.effects,
        )?;
        publish(
            self.alloc,
            node,
            &mut self.effects,
            &mut self.trace,
            &mut self.packets,
            &mut self.lanes,
        )?;
        self.taken += 1;
        Ok(())
    }

    // A copy of packet `k` comes to its destination.
    fn deliver(&mut self, k: usize) -> Result<(), AllocError>
        requires sound { IsSoundBy H.Handlers self.old }
        requires steps { self.old.taken < MAX_STEPS }
        requires copy { 0 < held_copies (slice_get self.old.packets k) }
        requires first { IsTrue (keeps_order self.old.net) → IsFirst self.old.packets k }
        ensures takes { OnOk result (TakesBy H.Handlers (Step.Deliver k) self.old self.new) }
        ensures handlers { self.new.handlers ≡ self.old.handlers }
        ensures net { self.new.net ≡ self.old.net }
    {
        let packet = self.packets.at(k);
        let node = packet.destination;
        message_event(
            &self.handlers,
            self.alloc,
            &packet,
            &mut self.states,
            &mut self.effects,
        )?;
        self.packets.take_copy(k);
        publish(
            self.alloc,
            node,
            &mut self.effects,
            &mut self.trace,
            &mut self.packets,
            &mut self.lanes,
        )?;
        self.taken += 1;
        Ok(())
    }
}

// What a network does that restarts nodes, and that stands on this one.
impl<H: Handlers> World<H> {
    /// A step that changes nothing here.
    pub(crate) fn count_step(&mut self)
        requires { self.old.taken < MAX_STEPS }
        ensures { self.new ≡ record self.old { taken = self.old.taken + 1 } }
    {
        self.taken += 1;
    }

    /// A step in which node `n` starts again from this state.
    pub(crate) fn restart(&mut self, n: Node, state: H::State)
        requires node { n < length self.old.states }
        requires steps { self.old.taken < MAX_STEPS }
        ensures { self.new
            ≡ record self.old { states = change_at (λ _. state) n self.old.states; taken = self.old.taken + 1 } }
    {
        self.states[usize::from(n.index())] = state;
        self.taken += 1;
    }
}
