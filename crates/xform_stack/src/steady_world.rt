ghost use Rattle.std.specs.Prelude.{◌≡◌, [], refl, IsTrue, IfOk};
ghost use Rattle.vst_base.specs.Nets.{stops_no_node};
ghost use Rattle.xform_stack.specs.Following.{HasFollowed, IsShown};
ghost use Rattle.xform_stack.specs.Systems.{system_of};

use crate::Network;
use handler_trait::Handlers;
use net_semantics::{StepFault, Trace, World};
use std::alloc::{AllocError, Global};
use std::marker::Model;
use vst_base::{Net, Node, Step};

/// A network on which no node stops, which tells which one it is. Contracts see the world.
#[derive(Drop)]
pub struct SteadyWorld<H: Handlers> {
    net: Net,
    world: World<H>,
}

impl<H: Handlers> Model for SteadyWorld<H> {
    ghost use Rattle.std.specs.Prelude.{◌≡◌};
    ghost use Rattle.net_semantics.specs.Shown.{WorldView};

    ghost Value = { WorldView H H.State H.Input H.Output H.Msg };

    ghost view = { λ s. s.world };

    ghost invariant = { λ s. s.net ≡ s.world.net };
}

impl<H: Handlers> SteadyWorld<H> {
    /// The first world of these handlers, on a network that stops no node. Where a network has inputs alone there is one node.
    pub fn new(alloc: Global, handlers: H, net: Net) -> Result<Self, AllocError>
        requires net { IsTrue (stops_no_node net) }
        requires alone { net ≡ Net.One → (H.meaning handlers).nodes ≡ 1 }
        ensures handlers { IfOk result (λ world. world.handlers ≡ handlers) }
        ensures net { IfOk result (λ world. world.net ≡ net) }
        ensures first { IfOk result (λ world. HasFollowed H.Handlers world []) }
        ensures trace { IfOk result (λ world. world.trace ≡ []) }
        ensures taken { IfOk result (λ world. world.taken ≡ 0) }
        ensures sound { IfOk result (IsShown H.Handlers) }
    {
        Ok(SteadyWorld {
            net,
            world: World::new(alloc, handlers, net)?,
        })
    }
}

impl<H: Handlers> Network<H> for SteadyWorld<H> {
    type Kept = H::State;

    ghost within = { λ w. w.handlers };

    ghost system = { λ w. system_of w.net (H.meaning w.handlers) };

    ghost progress = { λ w. record { trace = w.trace; taken = w.taken } };

    ghost follows = { λ w ss. HasFollowed H.Handlers w ss };

    ghost sound = { λ w. IsShown H.Handlers w };

    fn step(&mut self, step: &Step<H::Input>) -> Result<(), StepFault> {
        self.world.step(step)
    }

    fn handlers(&self) -> &H {
        self.world.handlers()
    }

    fn net(&self) -> Net {
        self.net
    }

    fn trace(&self) -> &Trace<H::Input, H::Output> {
        self.world.trace()
    }

    fn forget_trace(&mut self) {
        self.world.forget_trace();
    }

    fn into_trace(self) -> Trace<H::Input, H::Output> {
        self.world.into_trace()
    }

    fn taken(&self) -> u32 {
        self.world.taken()
    }

    fn state(&self, n: Node) -> &H::State {
        self.world.state(n)
    }

    fn is_up(&self, n: Node) -> bool {
        self.world.is_up(n)
    }

    fn sent(&self) -> u32 {
        self.world.sent()
    }

    fn copies(&self, k: u32) -> u32 {
        self.world.copies(k)
    }

    fn ends(&self, k: u32) -> Option<(Node, Node)> {
        self.world.ends(k)
    }

    ghost same_meaning = { λ w. refl };
}
