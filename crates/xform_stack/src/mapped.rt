ghost use Rattle.net_semantics.specs.Runs.{trace};

use crate::{Network, Observer};
use handler_trait::Handlers;
use std::alloc::{AllocError, Global};
use std::marker::Model;
use trace_maps::{Image, TraceMap};
use vst_base::Step;

/// An observer by a map of the steps and of what clients saw of them. It looks at nothing else. Contracts see the map.
#[derive(Drop)]
pub struct Mapped<T> {
    map: T,
}

impl<T> Model for Mapped<T> {
    ghost Value = { T };

    ghost view = { λ m. m.map };
}

impl<H: Handlers, W: Network<H>, T: TraceMap<H::Input, H::Output>> Observer<H, W> for Mapped<T> {
    type Look = ();

    type Line = T::Line;

    ghost image_of = { λ h r ss. T.image_of ss (trace (H.meaning h) r ss) };

    ghost fits = { λ h sys. Unit {0} };

    ghost has_followed = { λ map h r ss. T.has_followed map ss (trace (H.meaning h) r ss) };

    ghost has_looked = { λ look h r ss s. Unit {0} };

    fn start(alloc: Global) -> Self {
        Mapped {
            map: T::start(alloc),
        }
    }

    fn look(&self, _network: &W, _step: &Step<H::Input>) {}

    fn follow(
        &mut self,
        alloc: Global,
        _look: (),
        network: &W,
        step: &Step<H::Input>,
        before: usize,
    ) -> Result<(), AllocError> {
        let handlers = network.handlers();
        let items = network.trace().items();
        self.map.take(alloc, handlers, step)?;
        self.map.see(alloc, handlers, &items[before..])
    }

    fn finish(self, _alloc: Global) -> Result<Image<T::Line>, AllocError> {
        Ok(self.map.into_image())
    }
}
