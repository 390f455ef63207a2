ghost use Rattle.std.specs.Prelude.{◌≡◌, ◌≢◌, ℕ, ◌+◌, ◌<◌, ◌≤◌, [], ◌++◌, length, true, false, IsTrue, IfOk, IfErr, OnOk, OnErr, MatchResult, Ok, Err, Some};
ghost use Rattle.net_semantics.specs.Worlds.{first_world, copies, ends, held};
ghost use Rattle.net_semantics.specs.Steps.{next, refusal_of, items_of, IsAnswer, acting, fails};
ghost use Rattle.net_semantics.specs.ShownFail.{ForShownFail, IsSoundFailBy, ShowsFailBy};
ghost use Rattle.net_semantics.specs.Taking.{GrowsBy};
ghost use Rattle.net_semantics.specs.TakingFail.{AnswersFailBy};
ghost use Rattle.vst_base.specs.Nets.{has_kind, kind_of};
ghost use Rattle.vst_base.specs.declared.step.TheConstants.{MAX_STEPS};

use crate::refusals::{existing_node, input_node};
use crate::stopped::Stopped;
use crate::{StepFault, Trace, World};
use handler_trait::{Handlers, Rebootable};
use std::alloc::{AllocError, Global};
use std::marker::Model;
use vst_base::{Net, Node, Step, StepRefusal};

/// A network on which packets are copied and lost, and nodes crash and reboot. It is one that copies
/// and loses packets, on which the nodes that are down take no step.
#[derive(Drop)]
pub struct FailWorld<H: Rebootable> {
    alloc: Global,
    world: World<H>,
    stopped: Stopped<H::Kept>,
}

impl<H: Rebootable> Model for FailWorld<H> {
    ghost use Rattle.std.specs.Prelude.{◌≡◌};
    ghost use Rattle.vst_base.specs.declared.net.Net.TheVariants.{Loss};
    ghost use Rattle.net_semantics.specs.ShownFail.{FailView};

    ghost Value = { FailView H H.State H.Kept H.Input H.Output H.Msg };

    ghost view = { λ f. record {
      handlers = f.world.handlers;
      states = f.world.states;
      stopped = f.stopped;
      packets = f.world.packets;
      trace = f.world.trace;
      taken = f.world.taken;
    } };

    ghost invariant = { λ f. f.world.net ≡ Loss };
}

impl<H: Rebootable> FailWorld<H> {
    /// The first world of these handlers: every node is up.
    pub fn new(alloc: Global, handlers: H) -> Result<Self, AllocError>
        ensures handlers { IfOk result (λ world. world.handlers ≡ handlers) }
        ensures first { IfOk result (λ world.
            ShowsFailBy H.Rebootable world (first_world (H.meaning handlers))) }
        ensures trace { IfOk result (λ world. world.trace ≡ []) }
        ensures taken { IfOk result (λ world. world.taken ≡ 0) }
        ensures sound { IfOk result (IsSoundFailBy H.Rebootable) }
    {
        let nodes = handlers.nodes();
        let world = World::new(alloc, handlers, Net::Loss)?;
        let stopped = Stopped::new(alloc, nodes)?;
        Ok(FailWorld {
            alloc,
            world,
            stopped,
        })
    }

    /// Takes one step, or says why not: the first refusal that applies. A refused step changes nothing.
    /// After want of memory the world is given up.
    pub fn step(&mut self, step: &Step<H::Input>) -> Result<(), StepFault>
        requires sound { IsSoundFailBy H.Rebootable self.old }
        requires steps { self.old.taken < MAX_STEPS }
        ensures refused { ForShownFail H.Rebootable self.old (λ w.
            IsAnswer result (refusal_of Net.Fail (H.meaning self.old.handlers) w step.now)) }
        ensures unchanged { IfErr result (λ why. why ≢ StepFault.Memory → self.new ≡ self.old) }
        ensures next { OnOk result (ForShownFail H.Rebootable self.old (λ w.
            ShowsFailBy H.Rebootable self.new (next (H.meaning self.old.handlers) (H.recovery self.old.handlers) w step.now))) }
        ensures trace { OnOk result (ForShownFail H.Rebootable self.old (λ w.
            self.new.trace ≡ self.old.trace ++ items_of (H.meaning self.old.handlers) w step.now)) }
        ensures trace_grows { OnOk result (GrowsBy (length self.old.trace) (length self.new.trace)) }
        ensures taken { OnOk result (self.new.taken ≡ self.old.taken + 1) }
        ensures handlers { self.new.handlers ≡ self.old.handlers }
        ensures sound { OnOk result (IsSoundFailBy H.Rebootable self.new) }
        ensures dup_takes_no_memory { (k : ℕ) → step.now ≡ Step.Dup k → result ≢ Err StepFault.Memory }
        ensures lose_takes_no_memory { (k : ℕ) → step.now ≡ Step.Lose k → result ≢ Err StepFault.Memory }
    {
        match step {
            Step::In(..) | Step::Deliver(_) | Step::Tick(_) | Step::Dup(_) | Step::Lose(_) =>
                self.pass_on(step),
            Step::Crash(n) => self.take_crash(*n),
            Step::Reboot(n) => self.take_reboot(*n),
        }
    }

    /// Its handlers.
    pub fn handlers(&self) -> &H
        ensures { result.now ≡ self.now.handlers }
    {
        self.world.handlers()
    }

    /// How many steps it has taken.
    pub fn taken(&self) -> u32
        ensures { result ≡ self.now.taken }
    {
        self.world.taken()
    }

    /// Gives up the world for what clients saw since it was last cleared.
    pub fn into_trace(self) -> Trace<H::Input, H::Output>
        ensures { result ≡ self.trace }
    {
        self.world.into_trace()
    }

    /// What clients saw since it was last cleared.
    pub fn trace(&self) -> &Trace<H::Input, H::Output>
        ensures { result.now ≡ self.now.trace }
    {
        self.world.trace()
    }

    /// Clears what clients saw so far: the trace begins anew. Nothing else changes.
    pub fn forget_trace(&mut self)
        ensures { self.new ≡ record self.old { trace = [] } }
    {
        self.world.forget_trace();
    }

    /// How many copies of packet `k` are in flight, none of one that was never sent.
    pub fn copies(&self, k: u32) -> u32
        ensures { ForShownFail H.Rebootable self.now (λ w. result ≡ copies w k) }
    {
        self.world.copies(k)
    }

    /// The source and the destination of packet `k`, and `None` exactly where it was never sent.
    pub fn ends(&self, k: u32) -> Option<(Node, Node)>
        ensures { ForShownFail H.Rebootable self.now (λ w. result ≡ ends w k) }
    {
        self.world.ends(k)
    }

    /// How many packets were sent.
    pub fn sent(&self) -> u32
        requires sound { IsSoundFailBy H.Rebootable self.now }
        ensures { ForShownFail H.Rebootable self.now (λ w. result ≡ length w.packets) }
    {
        self.world.sent()
    }

    /// How many packets have a copy in flight.
    #[tactic(auto, using(crate::proofs::FailShowing::shows_up))]
    pub fn held(&self) -> u32
        requires sound { IsSoundFailBy H.Rebootable self.now }
        ensures { ForShownFail H.Rebootable self.now (λ w. result ≡ held w) }
    {
        self.world.held()
    }

    /// Whether node `n` is up.
    pub fn is_up(&self, n: Node) -> bool
        ensures { ForShownFail H.Rebootable self.now (λ w. result ≡ w.is_up n) }
    {
        self.stopped.is_up(n)
    }

    /// The state of node `n`. A node that is down has the one in which it stopped.
    pub fn state(&self, n: Node) -> &H::State
        requires sound { IsSoundFailBy H.Rebootable self.now }
        requires node { n < (H.meaning self.now.handlers).nodes }
        ensures { ForShownFail H.Rebootable self.now (λ w. result.now ≡ w.state n) }
    {
        self.world.state(n)
    }
}

impl<H: Rebootable> FailWorld<H> {
    // Node `n`, which has to be up.
    fn up(&self, n: Node) -> Result<(), StepRefusal>
        ensures up { OnOk result (ForShownFail H.Rebootable self.now (λ w.
            w.is_up n ≡ true)) }
        ensures down { OnErr result (ForShownFail H.Rebootable self.now (λ w.
            w.is_up n ≡ false)) }
        ensures why { IfErr result (λ why. why ≡ StepRefusal.NodeDown) }
    {
        if self.is_up(n) {
            Ok(())
        } else {
            Err(StepRefusal::NodeDown)
        }
    }

    // The node that acts in the step, if any, has to be up.
    fn acting_up(&self, step: &Step<H::Input>) -> Result<(), StepRefusal>
        requires kind { IsTrue (has_kind Net.Loss (kind_of step.now)) }
        ensures up { OnOk result (ForShownFail H.Rebootable self.now (λ w.
            fails (acting w step.now) w.is_up ≡ false)) }
        ensures refused { IfErr result (λ why. ForShownFail H.Rebootable self.now (λ w.
            refusal_of Net.Fail (H.meaning self.now.handlers) w step.now ≡ Some why)) }
    {
        match step {
            Step::In(n, _) => self.up(input_node(self.world.handlers(), *n)?),
            Step::Tick(n) => self.up(existing_node(self.world.handlers(), *n)?),
            Step::Deliver(k) => match self.ends(*k) {
                Some((_, destination)) => self.up(destination),
                None => Ok(()),
            },
            Step::Dup(_) | Step::Lose(_) => Ok(()),
            Step::Crash(_) | Step::Reboot(_) => unreachable!(),
        }
    }

    // A step that a network has too on which no node is ever down: the world takes it that this one
    // stands on.
    fn pass_on(&mut self, step: &Step<H::Input>) -> Result<(), StepFault>
        requires sound { IsSoundFailBy H.Rebootable self.old }
        requires steps { self.old.taken < MAX_STEPS }
        requires kind { IsTrue (has_kind Net.Loss (kind_of step.now)) }
        ensures answers { AnswersFailBy H.Rebootable step.now self.old self.new result }
        ensures dup_takes_no_memory { (k : ℕ) → step.now ≡ Step.Dup k → result ≢ Err StepFault.Memory }
        ensures lose_takes_no_memory { (k : ℕ) → step.now ≡ Step.Lose k → result ≢ Err StepFault.Memory }
    {
        self.acting_up(step)?;
        self.world.step(step)
    }

    // A crash.
    fn take_crash(&mut self, n: u32) -> Result<(), StepFault>
        requires sound { IsSoundFailBy H.Rebootable self.old }
        requires steps { self.old.taken < MAX_STEPS }
        ensures { AnswersFailBy H.Rebootable (Step.Crash n) self.old self.new result }
    {
        let node = existing_node(self.world.handlers(), n)?;
        self.up(node)?;
        let state = self.world.held_state(node);
        let kept = self.world.handlers().keep(self.alloc, state)?;
        self.stopped.stop(node, kept);
        self.world.count_step();
        Ok(())
    }

    // A reboot.
    fn take_reboot(&mut self, n: u32) -> Result<(), StepFault>
        requires sound { IsSoundFailBy H.Rebootable self.old }
        requires steps { self.old.taken < MAX_STEPS }
        ensures { AnswersFailBy H.Rebootable (Step.Reboot n) self.old self.new result }
    {
        let node = existing_node(self.world.handlers(), n)?;
        let Some(kept) = self.stopped.start(node) else {
            return Err(StepFault::Refused(StepRefusal::NodeUp));
        };
        let state = self.world.handlers().reboot(self.alloc, node, kept)?;
        self.world.restart(node, state);
        Ok(())
    }
}
