ghost use Rattle.std.specs.Prelude.{◌≡◌};

use crate::copy::copy_step;
use crate::{Image, TraceMap};
use handler_trait::Handlers;
use std::alloc::{AllocError, Global};
use std::marker::Model;
use vst_base::{Item, Step};

/// The image of a schedule that is its own: for handlers that need no better network than the one that they run on. Contracts
/// see the steps.
#[derive(Drop)]
pub struct Itself<I> {
    steps: Image<Step<I>>,
}

impl<I> Model for Itself<I> {
    ghost use Rattle.std.specs.Prelude.{List};
    ghost use Rattle.vst_base.specs.declared.step.Step.{Step};

    ghost Value = { List (Step I) };

    ghost view = { λ i. i.steps };
}

impl<I: Drop, O: Drop> TraceMap<I, O> for Itself<I> {
    type Line = Step<I>;

    ghost image_of = { λ ss items. ss };

    ghost has_followed = { λ map ss items. map ≡ ss };

    fn start(alloc: Global) -> Self {
        Itself {
            steps: Image::new(alloc),
        }
    }

    fn take<H: Handlers<Input = I>>(
        &mut self,
        alloc: Global,
        handlers: &H,
        step: &Step<I>,
    ) -> Result<(), AllocError> {
        self.steps.push(copy_step(alloc, handlers, step)?)
    }

    fn see<H: Handlers<Input = I>>(
        &mut self,
        _alloc: Global,
        _handlers: &H,
        _seen: &[Item<I, O>],
    ) -> Result<(), AllocError> {
        Ok(())
    }

    fn into_image(self) -> Image<Step<I>> {
        self.steps
    }
}
