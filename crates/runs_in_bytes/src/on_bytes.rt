ghost use Rattle.std.specs.Prelude.{◌≡◌, [], IfOk, refl};
ghost use Rattle.vst_base.specs.declared.net.Net.TheVariants as net_id;
ghost use Rattle.wired.specs.StackRuns.{IsInputStep};
ghost use Rattle.xform_stack.specs.Running.{HasTaken};
ghost use Rattle.runs_in_bytes.specs.Running.{HasFollowedOnBytes, IsSoundOnBytes};

use crate::OnBytesAlone;
use handler_trait::Handlers;
use net_semantics::{FailWorld, StepFault, Trace};
use std::alloc::{AllocError, Global};
use std::marker::Model;
use vst_base::{Net, Node, Step};
use xform_stack::Network;

/// A network on which packets are copied and lost, and nodes stop and start again, of handlers that are carried on bytes alone.
#[derive(Drop)]
pub struct OnBytes<H: OnBytesAlone> {
    world: FailWorld<H>,
}

impl<H: OnBytesAlone> Model for OnBytes<H> {
    ghost use Rattle.net_semantics.specs.ShownFail.{FailView};

    ghost Value = { FailView H H.State H.Kept H.Input H.Output H.Msg };

    ghost view = { λ r. r.world };
}

// A step's input has bytes.
fn has_bytes<H: OnBytesAlone>(step: &Step<H::Input>)
    ensures { IsInputStep H.has_bytes step.now }
{
    match step {
        Step::In(_, input) => H::has_bytes(input),
        Step::Deliver(_)
        | Step::Tick(_)
        | Step::Dup(_)
        | Step::Lose(_)
        | Step::Crash(_)
        | Step::Reboot(_) => {}
    }
}

impl<H: OnBytesAlone> OnBytes<H> {
    /// No step yet of these handlers, whose bytes are to be the stack's own.
    pub fn start(alloc: Global, handlers: H) -> Result<Self, AllocError>
        requires { H.is_own handlers }
        ensures handlers { IfOk result (λ network. network.handlers ≡ handlers) }
        ensures started { IfOk result (λ network. HasTaken (⟦<OnBytes<H> as Network<H::Inner>>⟧.system network)
            ⟦<OnBytes<H> as Network<H::Inner>>⟧.follows ⟦<OnBytes<H> as Network<H::Inner>>⟧.progress [] network) }
        ensures trace { IfOk result (λ network. network.trace ≡ []) }
        ensures sound { IfOk result ⟦<OnBytes<H> as Network<H::Inner>>⟧.sound }
    {
        H::run_on_bytes_alone();
        Ok(OnBytes {
            world: FailWorld::new(alloc, handlers)?,
        })
    }
}

impl<H: OnBytesAlone> Network<H::Inner> for OnBytes<H> {
    type Kept = H::InnerKept;

    ghost within = { λ w. H.within w.handlers };

    ghost system = { λ w. record {
      net = net_id.Fail;
      meaning = H.Inner.meaning (H.within w.handlers);
      recovery = H.within_recovery w.handlers;
    } };

    ghost progress = { λ w. record { trace = w.trace; taken = w.taken } };

    ghost follows = { λ w ss. HasFollowedOnBytes H.has_bytes (H.meaning w.handlers) (H.recovery w.handlers)
        (H.Inner.meaning (H.within w.handlers)) (H.within_recovery w.handlers) (H.byte_world w.handlers) w ss };

    ghost sound = { λ w. IsSoundOnBytes H.is_own H.Rebootable w };

    fn step(&mut self, step: &Step<H::Input>) -> Result<(), StepFault> {
        H::run_on_bytes_alone();
        has_bytes::<H>(step);
        self.world.step(step)
    }

    fn handlers(&self) -> &H::Inner {
        self.world.handlers().inner()
    }

    fn net(&self) -> Net {
        Net::Fail
    }

    fn trace(&self) -> &Trace<H::Input, H::Output> {
        self.world.trace()
    }

    fn forget_trace(&mut self) {
        self.world.forget_trace();
    }

    fn into_trace(self) -> Trace<H::Input, H::Output> {
        self.world.into_trace()
    }

    fn taken(&self) -> u32 {
        self.world.taken()
    }

    fn state(&self, n: Node) -> &<H::Inner as Handlers>::State {
        H::inner_state(self.world.state(n))
    }

    fn is_up(&self, n: Node) -> bool {
        self.world.is_up(n)
    }

    fn sent(&self) -> u32 {
        self.world.sent()
    }

    fn copies(&self, k: u32) -> u32 {
        self.world.copies(k)
    }

    fn ends(&self, k: u32) -> Option<(Node, Node)> {
        self.world.ends(k)
    }

    ghost same_meaning = { λ _. refl };
}
