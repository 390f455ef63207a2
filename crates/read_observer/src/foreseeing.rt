ghost use Rattle.std.specs.Prelude.{◌≡◌, ℕ, ◌<◌, List, [], ◌∷◌, ◌++◌, length, option_map, Some};
ghost use Rattle.net_semantics.specs.Steps.{refusal_of};
ghost use Rattle.vst_base.specs.declared.step.Item.{Item};
ghost use Rattle.vst_base.specs.declared.step.Step.{Step};
ghost use Rattle.vst_base.specs.declared.step.Step.TheVariants as step;
ghost use Rattle.read_observer.specs.CheckedLaws.{refused_below};
ghost use Rattle.vst_base.specs.declared.step.StepRefusal.{StepRefusal};
ghost use Rattle.xform_stack.specs.Running.{HasRun, HasTaken};
ghost use Rattle.xform_stack.specs.Systems.{world_of};

use crate::placing::node_numbered;
use handler_trait::Handlers;
use vst_base::StepRefusal;
use xform_stack::{Network, Observer, Running, Runs};

/// A running schedule that tells of an input whether it would be refused, before it is taken.
pub trait Foresees: Runs {
    /// The refusal that any input at this node would meet now.
    fn refusal_of_input(&self, node: u32) -> Option<StepRefusal>
        requires { Self.sound self.now }
        ensures { (ss : List (Step Self.Input)) (gone : List (Item Self.Input Self.Output)) (i : Self.Input)
            → HasRun (Self.played self.now) Self.follows Self.progress ss gone self.now
            → (Self.played self.now).refused (ss ++ step.In node i ∷ []) ≡ option_map (λ why. (length ss, why)) result };

    /// A refusal is of one of the steps.
    ghost of_a_step: { (r : Self) (ss : List (Step Self.Input)) (why : ℕ × StepRefusal) → (Self.played r).refused ss ≡ Some why
        → why.0 < length ss };
}

// The refusal that an input at this node meets on a network.
fn refusal_on<H: Handlers, W: Network<H>>(network: &W, node: u32) -> Option<StepRefusal>
    ensures { (ss : List (Step H.Input)) (i : H.Input) → HasTaken (W.system network.now) W.follows W.progress ss network.now
        → result ≡ refusal_of (W.system network.now).net (W.system network.now).meaning (world_of (W.system network.now) ss) (step.In node i) }
{
    let handlers = network.handlers();
    let nodes = handlers.nodes();
    let Some(node) = node_numbered(node, nodes) else {
        return Some(StepRefusal::NoSuchNode);
    };
    if !handlers.takes_input(node) {
        Some(StepRefusal::NoInputHere)
    } else if !network.is_up(node) {
        Some(StepRefusal::NodeDown)
    } else {
        None
    }
}

impl<H: Handlers, W: Network<H>, F: Observer<H, W>> Foresees for Running<H, W, F> {
    fn refusal_of_input(&self, node: u32) -> Option<StepRefusal> {
        refusal_on(self.network(), node)
    }

    ghost of_a_step = { λ r ss why is. refused_below (W.system r.network) ss why is };
}
