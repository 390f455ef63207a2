ghost use Rattle.std.specs.Prelude.{◌≡◌, ◌≤◌, ◌<◌, List, [], ◌∷◌, ◌++◌, length, take, slice_set, true, IfOk, IfSome, OnOk};
ghost use Rattle.std.specs.List.{list_all};
ghost use Rattle.flight_index.specs.Flights.{is_within};
ghost use Rattle.vst_base.specs.declared.net.Net.{Net};
ghost use Rattle.vst_base.specs.declared.node.TheConstants.{MAX_NODES};
ghost use Rattle.vst_base.specs.declared.step.TheConstants.{MAX_STEPS};
ghost use Rattle.vst_base.specs.declared.step.Step.{Step as SpecStep};
ghost use Rattle.xform_stack.specs.Running.{HasTaken};
ghost use Rattle.xform_stack.specs.Systems.{world_of};
ghost use Rattle.schedule_make.specs.Flying.{AreInFlightFrom, IsInTurn, IsWithin, flights_of, seen, seen_in_order, turns_of};
ghost use Rattle.schedule_make.specs.Made.{after_words, generator, step_of};
ghost use Rattle.schedule_make.specs.Making.{CanStep, HasFollowed, HasMade, step_after};

use crate::drawing::{drawn_kind, nodes, settled};
use crate::inputs::MakesInputs;
use crate::turning::{first_turns, join, leave};
use crate::words::next_words;
use flight_index::{FlightIndex, TurnIndex};
use handler_trait::Handlers;
use net_semantics::StepFault;
use rand_pcg::Lcg64Xsh32;
use std::alloc::{AllocError, Global};
use std::marker::{Model, PhantomData};
use vst_base::{Node, Step, StepKind};
use xform_stack::Network;

/// A schedule in the making: the network that took the steps so far, the packets that are in flight in it, and the random words to
/// come.
#[derive(Drop)]
pub struct Making<H: Handlers, W: Network<H>> {
    alloc: Global,
    network: W,
    flights: FlightIndex,
    // Where the network keeps the order of packets.
    turns: Option<TurnIndex>,
    random: Lcg64Xsh32,
    handlers: PhantomData<H>,
}

impl<H: Handlers, W: Network<H>> Model for Making<H, W> {
    ghost use Rattle.schedule_make.specs.Making.{MakingView};

    ghost Value = { MakingView W };

    ghost view = { λ m. record { network = m.network; flights = m.flights; turns = m.turns; random = m.random } };
}

// The step of this kind at this node or of this packet.
fn step_of<I: Drop>(input: I, kind: StepKind, at: u32) -> Step<I>
    ensures { result ≡ step_of input kind at }
{
    match kind {
        StepKind::In => Step::In(at, input),
        StepKind::Deliver => Step::Deliver(at),
        StepKind::Tick => Step::Tick(at),
        StepKind::Dup => Step::Dup(at),
        StepKind::Lose => Step::Lose(at),
        StepKind::Crash => Step::Crash(at),
        StepKind::Reboot => Step::Reboot(at),
    }
}

impl<H: Handlers, W: Network<H>> Making<H, W> {
    /// The schedule of this number, with no step yet.
    pub fn new(alloc: Global, network: W, seed: u32) -> Self
        requires { HasTaken (W.system network) W.follows W.progress [] network }
        ensures made { HasMade (W.system network) W.follows W.progress [] result }
        ensures random { result.random ≡ generator seed }
        ensures network { result.network ≡ network }
    {
        let turns = first_turns(alloc, network.net());
        Making {
            alloc,
            network,
            flights: FlightIndex::new(alloc),
            turns,
            random: Lcg64Xsh32::new(u64::from(seed), 1),
            handlers: PhantomData,
        }
    }

    /// Makes the next step, and takes it. The network has to allow it. After an `Err`, which is want of memory, the schedule in the
    /// making is given up.
    pub fn step<T: MakesInputs<Input = H::Input>>(&mut self) -> Result<Step<H::Input>, AllocError>
        requires sound { W.sound self.old.network }
        requires few { (W.progress self.old.network).taken < MAX_STEPS }
        requires nodes { (W.system self.old.network).meaning.nodes ≤ MAX_NODES }
        requires allowed { CanStep (W.system self.old.network) W.follows W.progress T.inputs self.old }
        ensures made { IfOk result (λ step. (ss : List (SpecStep H.Input))
            → HasMade (W.system self.old.network) W.follows W.progress ss self.old
            → step ≡ step_after (W.system self.old.network) T.inputs ss self.old.random) }
        ensures next { IfOk result (λ step. (ss : List (SpecStep H.Input))
            → HasMade (W.system self.old.network) W.follows W.progress ss self.old
            → HasMade (W.system self.old.network) W.follows W.progress (ss ++ step ∷ []) self.new) }
        ensures random { OnOk result (self.new.random ≡ after_words self.old.random) }
        ensures system { OnOk result (W.system self.new.network ≡ W.system self.old.network) }
        ensures sound { OnOk result (W.sound self.new.network) }
    {
        let before = self.network.sent();
        let step = self.next_step::<T>()?;
        match self.network.step(&step) {
            Ok(()) => {}
            Err(StepFault::Memory) => return Err(AllocError),
            Err(StepFault::Refused(_)) => unreachable!(),
        }
        self.network.forget_trace();
        self.see(&step);
        self.see_sent(before)?;
        Ok(step)
    }

    // The next step.
    fn next_step<T: MakesInputs<Input = H::Input>>(&mut self) -> Result<Step<H::Input>, AllocError>
        ensures made { IfOk result (λ step. (ss : List (SpecStep H.Input))
            → HasMade (W.system self.old.network) W.follows W.progress ss self.old
            → step ≡ step_after (W.system self.old.network) T.inputs ss self.old.random) }
        ensures rest { self.new ≡ record self.old { random = after_words self.old.random } }
    {
        let words = next_words(&mut self.random);
        let drawn = drawn_kind(words.kind);
        let (kind, at) = settled(
            self.alloc,
            &self.network,
            &self.flights,
            &self.turns,
            drawn,
            words.number,
        )?;
        let input = T::make(self.alloc, words.input, self.network.taken())?;
        Ok(step_of(input, kind, at))
    }

    // Sees what a step that was taken did to the packets that were sent before it, and to the nodes.
    fn see(&mut self, step: &Step<H::Input>)
        requires nodes { (W.system self.old.network).meaning.nodes ≤ MAX_NODES }
        requires within { IsWithin (W.system self.old.network).meaning.nodes self.old.flights step.now }
        requires turn { IsInTurn self.old.turns step.now }
        ensures seen { (ss : List (SpecStep H.Input)) → W.follows self.old.network ss
            → self.new.flights ≡ seen (world_of (W.system self.old.network) ss) step.now self.old.flights }
        ensures in_order { (ss : List (SpecStep H.Input)) → W.follows self.old.network ss
            → self.new.turns ≡ seen_in_order (world_of (W.system self.old.network) ss) step.now self.old.turns }
        ensures network { self.new.network ≡ self.old.network }
        ensures random { self.new.random ≡ self.old.random }
    {
        match step {
            Step::Deliver(k) | Step::Lose(k) => {
                if self.network.copies(*k) == 0 {
                    self.flights.gone(*k);
                    leave(&mut self.turns, *k);
                }
            }
            Step::Crash(n) => self.set_up(*n, false),
            Step::Reboot(n) => self.set_up(*n, true),
            Step::In(..) | Step::Tick(_) | Step::Dup(_) => {}
        }
    }

    // Whether this node is up from now on.
    fn set_up(&mut self, n: u32, is_up: bool)
        requires nodes { (W.system self.old.network).meaning.nodes ≤ MAX_NODES }
        requires within { n < (W.system self.old.network).meaning.nodes }
        ensures { self.new ≡ record self.old { flights = record self.old.flights { up = slice_set self.old.flights.up n is_up } } }
    {
        match Node::new(n as u8, nodes(&self.network)) {
            Some(node) => self.flights.set_up(node, is_up),
            None => unreachable!(),
        }
    }

    // Sees the packets that were sent since so many.
    fn see_sent(&mut self, before: u32) -> Result<(), AllocError>
        requires sound { W.sound self.old.network }
        requires nodes { (W.system self.old.network).meaning.nodes ≤ MAX_NODES }
        requires followed { HasFollowed W.follows self.old.network }
        requires before { length self.old.flights.packets ≡ before }
        requires turns { IfSome self.old.turns (λ ps. length ps ≡ before) }
        ensures packets { OnOk result ((ss : List (SpecStep H.Input)) → W.follows self.old.network ss
            → AreInFlightFrom before (world_of (W.system self.old.network) ss).packets
            → self.old.flights.packets ≡ take before (flights_of (world_of (W.system self.old.network) ss).packets)
            → self.new.flights.packets ≡ flights_of (world_of (W.system self.old.network) ss).packets) }
        ensures in_order { OnOk result ((net : Net) (ss : List (SpecStep H.Input)) → W.follows self.old.network ss
            → AreInFlightFrom before (world_of (W.system self.old.network) ss).packets
            → self.old.turns ≡ turns_of net (take before (world_of (W.system self.old.network) ss).packets)
            → self.new.turns ≡ turns_of net (world_of (W.system self.old.network) ss).packets) }
        ensures within { OnOk result (list_all is_within self.old.flights.packets ≡ true
            → list_all is_within self.new.flights.packets ≡ true) }
        ensures up { self.new.flights.up ≡ self.old.flights.up }
        ensures network { self.new.network ≡ self.old.network }
        ensures random { self.new.random ≡ self.old.random }
    {
        for k in before..self.network.sent() {
            if let Some(ends) = self.network.ends(k) {
                self.flights.sent(ends.1)?;
                join(&mut self.turns, ends)?;
            }
        }
        Ok(())
    }
}
