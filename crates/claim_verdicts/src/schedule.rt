ghost use Rattle.std.specs.Prelude.{◌≡◌, ◌≤◌, ◌+◌, [], IfOk, IsTrue, length};
ghost use Rattle.net_semantics.specs.Runs.{first_refused, trace};
ghost use Rattle.claim_verdicts.specs.Explaining.{explained_by};
ghost use Rattle.claim_verdicts.specs.Schedules.{schedule_verdict};
ghost use Rattle.vst_base.specs.Nets.{stops_no_node};
ghost use Rattle.vst_base.specs.declared.step.TheConstants.{MAX_STEPS};
ghost use Rattle.check_text.specs.declared.reading.TheConstants.{MAX_LINES};
ghost use Rattle.xform_stack.specs.Running.{HasTaken};

use crate::Verdict;
use crate::comparison::Comparison;
use crate::lines::{image_line, item_line};
use crate::text_pair::TextPair;
use app_text::AppText;
use check_text::Claim;
use handler_trait::Handlers;
use net_semantics::StepFault;
use std::alloc::{AllocError, Global};
use vst_base::{Item, Net, Step};
use xform_stack::{Network, SteadyWorld};

// The verdict on a claim whose image is a schedule, by a network that has taken no step yet. What clients see is compared with the
// claimed trace after each step, and then cleared.
fn verdict_by_run<H: Handlers, W: Network<H>, A: AppText<Input = H::Input, Output = H::Output>>(
    alloc: Global,
    mut network: W,
    claim: &Claim<H::Input, H::Output, Step<H::Input>>,
) -> Result<Verdict, AllocError>
    requires started { HasTaken (W.system network) W.follows W.progress [] network }
    requires clear { (W.progress network).trace ≡ [] }
    requires sound { W.sound network }
    requires few { length claim.now.trace + length claim.now.image ≤ MAX_LINES }
    requires counted { length claim.now.image ≤ MAX_STEPS }
    ensures { IfOk result (λ verdict. verdict ≡ explained_by A.input_text A.output_text claim.now
        (first_refused (W.system network).net (W.system network).meaning (W.system network).recovery claim.now.image)
        (trace (W.system network).meaning (W.system network).recovery claim.now.image)) }
{
    let mut texts = TextPair::new(alloc)?;
    let mut comparison = Comparison::SameSoFar(0);
    for (place, step) in claim.image().iter().enumerate() {
        match network.step(step) {
            Ok(()) => {}
            Err(StepFault::Refused(_)) => return Ok(Verdict::No(4, image_line(claim, place))),
            Err(StepFault::Memory) => return Err(AllocError),
        }
        let came = network.trace().items();
        comparison = comparison.after::<A, Item<A::Input, A::Output>>(
            &mut texts,
            claim.trace(),
            came,
        )?;
        network.forget_trace();
    }
    match comparison.difference(claim.trace().len()) {
        Some(place) => Ok(Verdict::No(5, item_line(place))),
        None => Ok(Verdict::Yes),
    }
}

/// The verdict on a claim whose image is a schedule of these handlers on a network that stops no node: whether the network
/// allows the schedule, and clients then see the trace. It has at most `MAX_LINES` items and steps, of which at most `MAX_STEPS` are
/// steps. Where a network has inputs alone there is one node. Neither the image nor what clients see is kept.
pub fn schedule_verdict<H: Handlers, A: AppText<Input = H::Input, Output = H::Output>>(
    alloc: Global,
    handlers: H,
    net: Net,
    claim: &Claim<H::Input, H::Output, Step<H::Input>>,
) -> Result<Verdict, AllocError>
    requires net { IsTrue (stops_no_node net) }
    requires alone { net ≡ Net.One → (H.meaning handlers).nodes ≡ 1 }
    requires few { length claim.now.trace + length claim.now.image ≤ MAX_LINES }
    requires counted { length claim.now.image ≤ MAX_STEPS }
    ensures { IfOk result (λ verdict. verdict ≡ schedule_verdict A.input_text A.output_text net (H.meaning handlers) claim.now) }
{
    let world = SteadyWorld::new(alloc, handlers, net)?;
    verdict_by_run::<H, SteadyWorld<H>, A>(alloc, world, claim)
}
