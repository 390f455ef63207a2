ghost use Rattle.std.specs.Prelude.{◌≡◌, List, ◌++◌, OnOk};
ghost use Rattle.fifo_observer.specs.Observed.{HasFollowed, IsGiven};
ghost use Rattle.fifo_xform.specs.Fifo.{fifo};
ghost use Rattle.fifo_xform.specs.Image.{fifo_image, image_of_step};
ghost use Rattle.net_semantics.specs.Runs.{trace};
ghost use Rattle.vst_base.specs.declared.step.Item.{Item};
ghost use Rattle.vst_base.specs.declared.step.Step.{Step};
ghost use Rattle.xform_stack.specs.Systems.{system_of};

use crate::Channels;
use crate::catching_up::catch_up;
use crate::given::given;
use fifo_xform::{Fifo, FifoState};
use handler_trait::Handlers;
use std::alloc::{AllocError, Global};
use std::marker::Model;
use trace_maps::{Image, TraceMap};
use vst_base::Step;
use xform_stack::{Network, Observer};

/// An observer of handlers over FIFO channels: it finds the schedule of the handlers within, where each step that gives them a packet's
/// content is the delivery of this packet, and maps that. Contracts see the map, and the packets by channel.
#[derive(Drop)]
pub struct InOrder<F> {
    map: F,
    channels: Channels,
}

impl<F> Model for InOrder<F> {
    ghost use Rattle.fifo_observer.specs.Observed.{OrderView};

    ghost Value = { OrderView F };

    ghost view = { λ o. record { map = o.map; channels = o.channels } };
}

// The map takes what a step is to the handlers within: the delivery of the packet that it gives them, or, if it gives none, itself or
// nothing.
fn take_within<H: Handlers, F: TraceMap<H::Input, H::Output>>(
    map: &mut F,
    alloc: Global,
    handlers: &Fifo<H>,
    given: Option<u32>,
    step: &Step<H::Input>,
) -> Result<(), AllocError>
    ensures { OnOk result ((ss : List (Step H.Input)) (items : List (Item H.Input H.Output)) → F.has_followed map.old ss items
        → F.has_followed map.new (ss ++ image_of_step step.now given) items) }
{
    match (given, step) {
        (Some(k), _) => map.take(alloc, handlers, &Step::Deliver(k)),
        (None, Step::In(_, _) | Step::Tick(_)) => map.take(alloc, handlers, step),
        (None, _) => Ok(()),
    }
}

impl<
    H: Handlers,
    W: Network<Fifo<H>, Kept = FifoState<H::State, H::Msg>>,
    F: TraceMap<H::Input, H::Output>,
> Observer<Fifo<H>, W> for InOrder<F> {
    type Look = Option<u32>;

    type Line = F::Line;

    ghost image_of = { λ h r ss. F.image_of (fifo_image (H.meaning h) ss) (trace (fifo (H.meaning h)) r ss) };

    ghost fits = { λ h sys. sys ≡ system_of sys.net (fifo (H.meaning h)) };

    ghost has_followed = { λ o h r ss. HasFollowed (H.meaning h) r F.has_followed o ss };

    ghost has_looked = { λ look h r ss s. IsGiven (H.meaning h) r look ss s };

    fn start(alloc: Global) -> Self {
        InOrder {
            map: F::start(alloc),
            channels: Channels::new(alloc),
        }
    }

    fn look(&self, network: &W, step: &Step<H::Input>) -> Option<u32> {
        given(&self.channels, network, step)
    }

    fn follow(
        &mut self,
        alloc: Global,
        look: Option<u32>,
        network: &W,
        step: &Step<H::Input>,
        before: usize,
    ) -> Result<(), AllocError> {
        catch_up(&mut self.channels, alloc, network)?;
        let handlers = network.handlers();
        take_within(&mut self.map, alloc, handlers, look, step)?;
        let items = network.trace().items();
        self.map.see(alloc, handlers, &items[before..])
    }

    fn finish(self, _alloc: Global) -> Result<Image<F::Line>, AllocError> {
        Ok(self.map.into_image())
    }
}
