ghost use Rattle.std.specs.Prelude.{◌≡◌, List, ◌++◌, OnOk};
ghost use Rattle.net_semantics.specs.Runs.{trace};
ghost use Rattle.retry_observer.specs.Observed.{HasFollowed, IsLooked, image_of_step, last_carries};
ghost use Rattle.retry_xform.specs.Image.{retried_image};
ghost use Rattle.retry_xform.specs.Retransmission.{retrying};
ghost use Rattle.vst_base.specs.declared.step.Item.{Item};
ghost use Rattle.vst_base.specs.declared.step.Step.{Step};
ghost use Rattle.xform_stack.specs.Systems.{system_of};

use crate::Places;
use crate::catching_up::catch_up;
use crate::looking::look;
use handler_trait::LeavesRoom;
use retry_xform::{Retry, RetryState};
use std::alloc::{AllocError, Global};
use std::marker::Model;
use trace_maps::{Image, TraceMap};
use vst_base::Step;
use xform_stack::{Network, Observer};

/// An observer of retrying handlers: it finds the schedule of the handlers within, where each delivery of data is a copy and a delivery
/// of the packet that the data carries, and maps that. Contracts see the map, and what packets carry.
#[derive(Drop)]
pub struct Resent<F> {
    map: F,
    places: Places,
}

impl<F> Model for Resent<F> {
    ghost use Rattle.retry_observer.specs.Observed.{ResentView};

    ghost Value = { ResentView F };

    ghost view = { λ o. record { map = o.map; places = o.places } };
}

// The map takes what a step is to the handlers within: itself, or a copy and a delivery of what was found, or nothing.
fn take_within<H: LeavesRoom, F: TraceMap<H::Input, H::Output>>(
    map: &mut F,
    alloc: Global,
    handlers: &Retry<H>,
    looked: Option<u32>,
    step: &Step<H::Input>,
) -> Result<(), AllocError>
    ensures { OnOk result ((ss : List (Step H.Input)) (items : List (Item H.Input H.Output)) → F.has_followed map.old ss items
        → F.has_followed map.new (ss ++ image_of_step step.now looked) items) }
{
    match (step, looked) {
        (Step::In(_, _) | Step::Tick(_), _) => map.take(alloc, handlers, step),
        (Step::Deliver(_) | Step::Dup(_) | Step::Lose(_), Some(j)) => {
            map.take(alloc, handlers, &Step::Dup(j))?;
            map.take(alloc, handlers, &Step::Deliver(j))
        }
        _ => Ok(()),
    }
}

// What the last packet that a step sends carries, where that is known.
fn last_carries<I>(step: &Step<I>, looked: Option<u32>) -> Option<u32>
    ensures { result ≡ last_carries step.now looked }
{
    match step {
        Step::In(_, _) | Step::Tick(_) => looked,
        _ => None,
    }
}

impl<
    H: LeavesRoom,
    W: Network<Retry<H>, Kept = RetryState<H::State, H::Msg>>,
    F: TraceMap<H::Input, H::Output>,
> Observer<Retry<H>, W> for Resent<F> {
    type Look = Option<u32>;

    type Line = F::Line;

    ghost image_of = { λ h r ss. F.image_of (retried_image (H.meaning h) ss) (trace (retrying (H.meaning h)) r ss) };

    ghost fits = { λ h sys. sys ≡ system_of sys.net (retrying (H.meaning h)) };

    ghost has_followed = { λ o h r ss. HasFollowed (H.meaning h) r F.has_followed o ss };

    ghost has_looked = { λ looked h r ss s. IsLooked (H.meaning h) r looked ss s };

    fn start(alloc: Global) -> Self {
        Resent {
            map: F::start(alloc),
            places: Places::new(alloc),
        }
    }

    fn look(&self, network: &W, step: &Step<H::Input>) -> Option<u32> {
        look(&self.places, network, step)
    }

    fn follow(
        &mut self,
        alloc: Global,
        looked: Option<u32>,
        network: &W,
        step: &Step<H::Input>,
        before: usize,
    ) -> Result<(), AllocError> {
        let carried = last_carries(step, looked);
        catch_up(&mut self.places, alloc, network, looked.is_some(), carried)?;
        let handlers = network.handlers();
        take_within(&mut self.map, alloc, handlers, looked, step)?;
        let items = network.trace().items();
        self.map.see(alloc, handlers, &items[before..])
    }

    fn finish(self, _alloc: Global) -> Result<Image<F::Line>, AllocError> {
        Ok(self.map.into_image())
    }
}
