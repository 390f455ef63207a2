ghost use Rattle.std.specs.Prelude.{◌≡◌, ℕ, IfOk, OnOk};
ghost use Rattle.std.specs.FinSet as set;
ghost use Rattle.net_semantics.specs.Once.{delivered_after, is_repeat, once};
ghost use Rattle.trace_maps.specs.Following.{HasFollowed};

use crate::{Image, TraceMap};
use handler_trait::Handlers;
use number_set::NumberSet;
use std::alloc::{AllocError, Global};
use std::marker::Model;
use vst_base::{Item, Step};

/// A map that another goes on from, without the schedule's repeats: copies are left out, and each further delivery of a packet.
#[derive(Drop)]
pub struct WithoutRepeats<F> {
    delivered: NumberSet,
    rest: F,
}

impl<F> Model for WithoutRepeats<F> {
    ghost use Rattle.std.specs.Coded.{codes, coded_ℕ};
    ghost use Rattle.std.specs.FinSet as set;
    ghost use Rattle.std.specs.Ordering.{nat_cmp};
    ghost use Rattle.trace_maps.specs.Following.{Left};

    ghost Value = { Left F };

    ghost coded = { Prim.hlevel (codes, set.code {R = nat_cmp} coded_ℕ) };

    ghost view = { λ l. record { delivered = l.delivered; rest = l.rest } };
}

// Whether a step is a repeat where these packets were delivered. A packet that it delivers is noted.
fn is_repeat<I>(delivered: &mut NumberSet, step: &Step<I>) -> Result<bool, AllocError>
    ensures repeat { IfOk result (λ answer. answer ≡ is_repeat (λ k. set.contains delivered.old k) step.now) }
    ensures delivered { OnOk result ((k : ℕ) → set.contains delivered.new k ≡ delivered_after (λ j. set.contains delivered.old j) step.now
        k) }
{
    match step {
        Step::Dup(_) => Ok(true),
        Step::Deliver(k) => {
            let k = u64::from(*k);
            let again = delivered.contains(k);
            delivered.insert(k)?;
            Ok(again)
        }
        Step::In(_, _) | Step::Tick(_) | Step::Lose(_) | Step::Crash(_) | Step::Reboot(_) => {
            Ok(false)
        }
    }
}

impl<I: Drop, O: Drop, F: TraceMap<I, O>> TraceMap<I, O> for WithoutRepeats<F> {
    type Line = F::Line;

    ghost image_of = { λ ss items. F.image_of (once ss) items };

    ghost has_followed = { λ map ss items. HasFollowed (λ rest left. F.has_followed rest left items) map ss };

    fn start(alloc: Global) -> Self {
        WithoutRepeats {
            delivered: NumberSet::new(alloc),
            rest: F::start(alloc),
        }
    }

    fn take<H: Handlers<Input = I>>(
        &mut self,
        alloc: Global,
        handlers: &H,
        step: &Step<I>,
    ) -> Result<(), AllocError> {
        if is_repeat(&mut self.delivered, step)? {
            return Ok(());
        }
        self.rest.take(alloc, handlers, step)
    }

    fn see<H: Handlers<Input = I>>(
        &mut self,
        alloc: Global,
        handlers: &H,
        seen: &[Item<I, O>],
    ) -> Result<(), AllocError> {
        self.rest.see(alloc, handlers, seen)
    }

    fn into_image(self) -> Image<F::Line> {
        self.rest.into_image()
    }
}
