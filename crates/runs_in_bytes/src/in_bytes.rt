ghost use Rattle.std.specs.Prelude.{◌≡◌, ◌≤◌, [], IfOk, IsTrue, refl};
ghost use Rattle.vst_base.specs.Nets.{stops_no_node};
ghost use Rattle.vst_base.specs.declared.node.TheConstants.{MAX_NODES};
ghost use Rattle.wire_codec.specs.Datagrams.{longest_message};
ghost use Rattle.wire_codec.specs.Headings.{HasByte};
ghost use Rattle.wired.specs.StackRuns.{IsInputStep};
ghost use Rattle.wired.specs.WiredRuns.{IsFormatOf};
ghost use Rattle.xform_stack.specs.Running.{HasTaken};
ghost use Rattle.xform_stack.specs.Systems.{system_of};
ghost use Rattle.runs_in_bytes.specs.Running.{HasFollowedInBytes, IsSoundInBytes};

use crate::name::no_name;
use handler_trait::Handlers;
use net_semantics::{StepFault, Trace, World};
use std::alloc::{AllocError, Global};
use std::marker::Model;
use vst_base::{Net, Node, StackId, Step};
use wired::{Cluster, OnWire, Wired, runs_as_bytes};
use xform_stack::Network;

/// A network that stops no node, whose packets are bytes.
#[derive(Drop)]
pub struct InBytes<H: OnWire> {
    net: Net,
    world: World<Wired<H>>,
}

impl<H: OnWire> Model for InBytes<H> {
    ghost use Rattle.std.specs.Prelude.{◌≡◌, ℕ, List};
    ghost use Rattle.net_semantics.specs.Shown.{WorldView};
    ghost use Rattle.wired.specs.Wiring.{Named};

    ghost Value = { WorldView (Named H) H.State H.Input H.Output (List ℕ) };

    ghost view = { λ r. r.world };

    ghost invariant = { λ r. r.net ≡ r.world.net };
}

// A step's input has bytes.
fn has_bytes<H: OnWire>(step: &Step<H::Input>)
    ensures { IsInputStep H.has_bytes step.now }
{
    match step {
        Step::In(_, input) => H::has_bytes(input),
        Step::Deliver(_)
        | Step::Tick(_)
        | Step::Dup(_)
        | Step::Lose(_)
        | Step::Crash(_)
        | Step::Reboot(_) => {}
    }
}

impl<H: OnWire> InBytes<H> {
    /// No step yet of these handlers, of at most `MAX_NODES` nodes, on a network that stops no node, in the bytes of a stack whose
    /// messages are theirs. Where a network has inputs alone there is one node.
    pub fn new(alloc: Global, handlers: H, stack: StackId, net: Net) -> Result<Self, AllocError>
        requires net { IsTrue (stops_no_node net) }
        requires alone { net ≡ Net.One → (H.meaning handlers).nodes ≡ 1 }
        requires few_nodes { (H.meaning handlers).nodes ≤ MAX_NODES }
        requires packets { HasByte stack }
        requires format { IsFormatOf stack H.Msg.format }
        requires short { H.longest ≤ longest_message }
        ensures handlers { IfOk result (λ network. network.handlers.inner ≡ handlers) }
        ensures stack { IfOk result (λ network. network.handlers.stack ≡ stack) }
        ensures net { IfOk result (λ network. network.net ≡ net) }
        ensures started { IfOk result (λ network. HasTaken (⟦<InBytes<H> as Network<H>>⟧.system network)
            ⟦<InBytes<H> as Network<H>>⟧.follows ⟦<InBytes<H> as Network<H>>⟧.progress [] network) }
        ensures trace { IfOk result (λ network. network.trace ≡ []) }
        ensures sound { IfOk result ⟦<InBytes<H> as Network<H>>⟧.sound }
    {
        runs_as_bytes::<H>();
        let cluster = Cluster {
            stack,
            name: no_name(),
        };
        let world = World::new(alloc, Wired::new(handlers, cluster), net)?;
        Ok(InBytes { net, world })
    }
}

impl<H: OnWire> Network<H> for InBytes<H> {
    type Kept = H::State;

    ghost within = { λ w. w.handlers.inner };

    ghost system = { λ w. system_of w.net (H.meaning w.handlers.inner) };

    ghost progress = { λ w. record { trace = w.trace; taken = w.taken } };

    ghost follows = { λ w ss. HasFollowedInBytes H.Msg.format H.has_bytes (H.meaning w.handlers.inner) w.net w.handlers w ss };

    ghost sound = { λ w. IsSoundInBytes H.Msg.format H.longest H.Handlers w };

    fn step(&mut self, step: &Step<H::Input>) -> Result<(), StepFault> {
        runs_as_bytes::<H>();
        has_bytes::<H>(step);
        self.world.step(step)
    }

    fn handlers(&self) -> &H {
        self.world.handlers().inner()
    }

    fn net(&self) -> Net {
        self.net
    }

    fn trace(&self) -> &Trace<H::Input, H::Output> {
        self.world.trace()
    }

    fn forget_trace(&mut self) {
        self.world.forget_trace();
    }

    fn into_trace(self) -> Trace<H::Input, H::Output> {
        self.world.into_trace()
    }

    fn taken(&self) -> u32 {
        self.world.taken()
    }

    fn state(&self, n: Node) -> &H::State {
        self.world.state(n)
    }

    fn is_up(&self, n: Node) -> bool {
        self.world.is_up(n)
    }

    fn sent(&self) -> u32 {
        self.world.sent()
    }

    fn copies(&self, k: u32) -> u32 {
        self.world.copies(k)
    }

    fn ends(&self, k: u32) -> Option<(Node, Node)> {
        self.world.ends(k)
    }

    ghost same_meaning = { λ _. refl };
}
