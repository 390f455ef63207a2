ghost use Rattle.std.specs.Prelude.{◌≡◌, List, [], ◌∷◌, ◌++◌, OnOk};
ghost use Rattle.vst_base.specs.declared.step.Item.{Item};
ghost use Rattle.vst_base.specs.declared.step.Step.{Step};

use crate::Image;
use handler_trait::Handlers;
use std::alloc::{AllocError, Global};
use vst_base::{Item, Step};

/// How a run is mapped to its image, a step at a time, by its steps and by what clients saw.
pub trait TraceMap<I, O>: Drop {
    /// A line of the image.
    type Line: Drop;

    /// The image of a schedule of which clients saw these items.
    ghost image_of: { List (Step I) → List (Item I O) → List Self.Line };

    /// Whether these steps were taken, and these items seen.
    ghost has_followed: { Self → List (Step I) → List (Item I O) → Type 0 };

    /// No step yet. It takes no memory.
    fn start(alloc: Global) -> Self
        ensures { has_followed result [] [] };

    /// One more step was taken. The handlers, which may be any with this input, copy it. After an `Err` the map is given up.
    fn take<H: Handlers<Input = I>>(
        &mut self,
        alloc: Global,
        handlers: &H,
        step: &Step<I>,
    ) -> Result<(), AllocError>
        ensures { OnOk result ((ss : List (Step I)) (items : List (Item I O)) → has_followed self.old ss items
            → has_followed self.new (ss ++ step.now ∷ []) items) };

    /// Clients saw these items after what they saw before. The handlers, which may be any with this input, copy inputs of them.
    /// After an `Err` the map is given up.
    fn see<H: Handlers<Input = I>>(
        &mut self,
        alloc: Global,
        handlers: &H,
        seen: &[Item<I, O>],
    ) -> Result<(), AllocError>
        ensures { OnOk result ((ss : List (Step I)) (items : List (Item I O)) → has_followed self.old ss items
            → has_followed self.new ss (items ++ seen.now)) };

    /// Gives up the map for the image.
    fn into_image(self) -> Image<Self::Line>
        ensures { (ss : List (Step I)) (items : List (Item I O)) → has_followed self ss items → result ≡ image_of ss items };
}
