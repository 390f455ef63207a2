ghost use Rattle.std.specs.Prelude.{refl};
ghost use Rattle.xform_stack.specs.Following.{HasFollowedFail, IsShownFail, failing};

use crate::Network;
use handler_trait::Rebootable;
use net_semantics::{FailWorld, StepFault, Trace};
use vst_base::{Net, Node, Step};

impl<H: Rebootable> Network<H> for FailWorld<H> {
    type Kept = H::Kept;

    ghost within = { λ w. w.handlers };

    ghost system = { λ w. failing H.Rebootable w.handlers };

    ghost progress = { λ w. record { trace = w.trace; taken = w.taken } };

    ghost follows = { λ w ss. HasFollowedFail H.Rebootable w ss };

    ghost sound = { λ w. IsShownFail H.Rebootable w };

    fn step(&mut self, step: &Step<H::Input>) -> Result<(), StepFault> {
        FailWorld::step(self, step)
    }

    fn handlers(&self) -> &H {
        FailWorld::handlers(self)
    }

    fn net(&self) -> Net {
        Net::Fail
    }

    fn trace(&self) -> &Trace<H::Input, H::Output> {
        FailWorld::trace(self)
    }

    fn forget_trace(&mut self) {
        FailWorld::forget_trace(self);
    }

    fn into_trace(self) -> Trace<H::Input, H::Output> {
        FailWorld::into_trace(self)
    }

    fn taken(&self) -> u32 {
        FailWorld::taken(self)
    }

    fn state(&self, n: Node) -> &H::State {
        FailWorld::state(self, n)
    }

    fn is_up(&self, n: Node) -> bool {
        FailWorld::is_up(self, n)
    }

    fn sent(&self) -> u32 {
        FailWorld::sent(self)
    }

    fn copies(&self, k: u32) -> u32 {
        FailWorld::copies(self, k)
    }

    fn ends(&self, k: u32) -> Option<(Node, Node)> {
        FailWorld::ends(self, k)
    }

    ghost same_meaning = { λ w. refl };
}
