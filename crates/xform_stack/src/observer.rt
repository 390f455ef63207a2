ghost use Rattle.std.specs.Prelude.{◌≡◌, ◌≤◌, drop, List, [], ◌∷◌, ◌++◌, length, IfOk, OnOk};
ghost use Rattle.handler_trait.specs.Handling.{Recovery};
ghost use Rattle.net_semantics.specs.Steps.{items_of};
ghost use Rattle.vst_base.specs.declared.step.Step.{Step};
ghost use Rattle.xform_stack.specs.Running.{HasTaken};
ghost use Rattle.xform_stack.specs.Systems.{System, world_of};

use crate::Network;
use handler_trait::Handlers;
use std::alloc::{AllocError, Global};
use trace_maps::Image;
use vst_base::Step;

/// What is made of a run as it goes on, as its image. It sees each step, what clients saw of it, and the network before it and
/// after it.
pub trait Observer<H: Handlers, W: Network<H>>: Drop {
    /// What it noted of the network before a step.
    type Look: Drop;

    /// A line of the image.
    type Line: Drop;

    /// The image of a schedule, by the handlers that run and by how their nodes stop and start again.
    ghost image_of: { H → Recovery H.State W.Kept → List (Step H.Input) → List Self.Line };

    /// Whether it can observe these handlers in this system.
    ghost fits: { H → System H.State W.Kept H.Input H.Output H.Msg → Type 0 };

    /// Whether a run of these steps was followed.
    ghost has_followed: { Self → H → Recovery H.State W.Kept → List (Step H.Input) → Type 0 };

    /// Whether this was noted before a step that comes after these.
    ghost has_looked: { Self.Look → H → Recovery H.State W.Kept → List (Step H.Input) → Step H.Input → Type 0 };

    /// No step yet. It takes no memory.
    fn start(alloc: Global) -> Self
        ensures { (h : H) (r : Recovery H.State W.Kept) → has_followed result h r [] };

    /// What it notes of the network before a step. It takes no memory.
    fn look(&self, network: &W, step: &Step<H::Input>) -> Self::Look
        requires { W.sound network.now }
        ensures { (ss : List (Step H.Input)) → HasTaken (W.system network.now) W.follows W.progress ss network.now
            → has_followed self.now (W.within network.now) (W.system network.now).recovery ss
            → has_looked result (W.within network.now) (W.system network.now).recovery ss step.now };

    /// Follows a step that the network has taken since it was looked at. Clients saw of it what stands after the first `before` items
    /// of the trace. After an `Err` the observer is given up.
    fn follow(
        &mut self,
        alloc: Global,
        look: Self::Look,
        network: &W,
        step: &Step<H::Input>,
        before: usize,
    ) -> Result<(), AllocError>
        requires sound { W.sound network.now }
        requires fits { fits (W.within network.now) (W.system network.now) }
        requires before { before ≤ length (W.progress network.now).trace }
        ensures { OnOk result ((ss : List (Step H.Input))
            → has_followed self.old (W.within network.now) (W.system network.now).recovery ss
            → has_looked look (W.within network.now) (W.system network.now).recovery ss step.now
            → HasTaken (W.system network.now) W.follows W.progress (ss ++ step.now ∷ []) network.now
            → drop before (W.progress network.now).trace ≡ items_of (W.system network.now).meaning (world_of (W.system network.now) ss)
            step.now
            → has_followed self.new (W.within network.now) (W.system network.now).recovery (ss ++ step.now ∷ [])) };

    /// Gives up the observer for the image.
    fn finish(self, alloc: Global) -> Result<Image<Self::Line>, AllocError>
        ensures { IfOk result (λ image. (h : H) (r : Recovery H.State W.Kept) (ss : List (Step H.Input)) → has_followed self h r ss
            → image ≡ image_of h r ss) };
}
