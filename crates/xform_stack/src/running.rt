ghost use Rattle.std.specs.Prelude.{◌≡◌, []};
ghost use Rattle.xform_stack.specs.Running.{HasRun, HasTaken};
ghost use Rattle.xform_stack.specs.SystemLaws.{played_on-causal};
ghost use Rattle.xform_stack.specs.Systems.{played_on};

use crate::{Network, Observer, Ran, Runs};
use handler_trait::Handlers;
use net_semantics::{StepFault, Trace};
use std::alloc::{AllocError, Global};
use std::marker::{Model, PhantomData};
use vst_base::Step;

/// A schedule that is run one step at a time: the network so far, and what observes it.
#[derive(Drop)]
pub struct Running<H: Handlers, W: Network<H>, F: Observer<H, W>> {
    alloc: Global,
    network: W,
    image: F,
    of: PhantomData<H>,
}

impl<H: Handlers, W: Network<H>, F: Observer<H, W>> Model for Running<H, W, F> {
    ghost use Rattle.xform_stack.specs.RunViews.{RunView};

    ghost Value = { RunView W F };

    ghost view = { λ r. record { network = r.network; image = r.image } };
}

impl<H: Handlers, W: Network<H>, F: Observer<H, W>> Running<H, W, F> {
    /// No step yet on this network, which has taken none. It takes no memory.
    pub fn new(alloc: Global, network: W) -> Self
        requires started { HasTaken (W.system network) W.follows W.progress [] network }
        requires trace { (W.progress network).trace ≡ [] }
        requires sound { W.sound network }
        requires fits { F.fits (W.within network) (W.system network) }
        ensures network { result.network ≡ network }
        ensures started { HasRun (⟦<Running<H, W, F> as Runs>⟧.played result) ⟦<Running<H, W, F> as Runs>⟧.follows
            ⟦<Running<H, W, F> as Runs>⟧.progress [] [] result }
        ensures sound { ⟦<Running<H, W, F> as Runs>⟧.sound result }
    {
        Running {
            alloc,
            network,
            image: F::start(alloc),
            of: PhantomData,
        }
    }

    /// The network so far.
    pub fn network(&self) -> &W
        ensures { result.now ≡ self.now.network }
    {
        &self.network
    }
}

impl<H: Handlers, W: Network<H>, F: Observer<H, W>> Runs for Running<H, W, F> {
    type Input = H::Input;

    type Output = H::Output;

    type Line = F::Line;

    ghost played = { λ r. played_on (W.system r.network) (F.image_of (W.within r.network) (W.system r.network).recovery) };

    ghost progress = { λ r. W.progress r.network };

    ghost follows = { λ r ss. W.follows r.network ss
        × F.has_followed r.image (W.within r.network) (W.system r.network).recovery ss };

    ghost sound = { λ r. W.sound r.network × F.fits (W.within r.network) (W.system r.network) };

    fn step(&mut self, step: &Step<H::Input>) -> Result<(), StepFault> {
        let before = self.network.trace().items().len();
        let look = self.image.look(&self.network, step);
        self.network.step(step)?;
        self.image
            .follow(self.alloc, look, &self.network, step, before)?;
        Ok(())
    }

    fn trace(&self) -> &Trace<H::Input, H::Output> {
        self.network.trace()
    }

    fn forget_trace(&mut self) {
        self.network.forget_trace();
    }

    fn taken(&self) -> u32 {
        self.network.taken()
    }

    fn finish(self) -> Result<Ran<H::Input, H::Output, F::Line>, AllocError> {
        let image = self.image.finish(self.alloc)?;
        Ok(Ran {
            trace: self.network.into_trace(),
            image,
        })
    }

    ghost causal = { λ r. played_on-causal (W.system r.network) (F.image_of (W.within r.network) (W.system r.network).recovery) };
}
