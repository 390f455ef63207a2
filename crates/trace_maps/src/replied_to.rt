ghost use Rattle.std.specs.Prelude.{◌≡◌, ℕ, List, [], ◌∷◌, ◌++◌, take, OnOk};
ghost use Rattle.net_semantics.specs.BelowPb.{below_pb};
ghost use Rattle.vst_base.specs.declared.pb_out.PbOut.{PbOut};
ghost use Rattle.vst_base.specs.declared.step.Item.{Item};
ghost use Rattle.trace_maps.specs.SingleNode.{alone, counted, HasSeen};

use crate::{Image, TraceMap};
use handler_trait::Handlers;
use std::alloc::{AllocError, Global};
use std::marker::Model;
use vst_base::{Item, PbOut, Step};

/// The image of a run of primary-backup: a machine alone takes the inputs at the primary that were replied to.
#[derive(Drop)]
pub struct RepliedTo<I> {
    // each input at the primary, also where its reply is still to come
    inputs: Image<Step<I>>,
    // it stops at the greatest number: there are never more inputs
    replies: usize,
}

impl<I> Model for RepliedTo<I> {
    ghost use Rattle.trace_maps.specs.SingleNode.{Seen};

    ghost Value = { Seen I };

    ghost view = { λ r. record { inputs = r.inputs; replies = r.replies } };
}

impl<I: Drop> RepliedTo<I> {
    /// Clients saw nothing yet. It takes no memory.
    pub fn new(alloc: Global) -> Self
        ensures { result ≡ record { inputs = []; replies = 0 } }
    {
        RepliedTo {
            inputs: Image::new(alloc),
            replies: 0,
        }
    }

    /// Gives up the map for what the machine takes of what clients saw: where n replies were counted, the first n inputs.
    pub fn into_taken(self) -> Image<Step<I>>
        ensures { (n : ℕ) → self.replies ≡ counted n → result ≡ take n self.inputs }
    {
        let mut inputs = self.inputs;
        inputs.truncate(self.replies);
        inputs
    }
}

impl<I: Drop> RepliedTo<I> {
    // One more item. After an `Err` the map is given up.
    fn see_item<H: Handlers<Input = I>, O>(
        &mut self,
        alloc: Global,
        handlers: &H,
        item: &Item<I, PbOut<O>>,
    ) -> Result<(), AllocError>
        ensures { OnOk result ((items : List (Item I (PbOut O))) → HasSeen self.old items → HasSeen self.new (items ++ item.now ∷ [])) }
    {
        match item {
            Item::Input(node, input) => {
                if node.index() == 0 {
                    let copy = handlers.copy_input(alloc, input)?;
                    self.inputs.push(Step::In(0, copy))?;
                }
            }
            Item::Output(node, PbOut::Reply(_)) => {
                if node.index() == 0 {
                    self.replies = self.replies.saturating_add(1);
                }
            }
            Item::Output(_, PbOut::Redirect) => {}
        }
        Ok(())
    }

    /// Clients saw these items after what they saw before. After an `Err` the map is given up.
    pub fn see_all<H: Handlers<Input = I>, O>(
        &mut self,
        alloc: Global,
        handlers: &H,
        seen: &[Item<I, PbOut<O>>],
    ) -> Result<(), AllocError>
        ensures { OnOk result ((items : List (Item I (PbOut O))) → HasSeen self.old items → HasSeen self.new (items ++ seen.now)) }
    {
        for item in seen {
            self.see_item(alloc, handlers, item)?;
        }
        Ok(())
    }
}

impl<C: Drop, O: Drop> TraceMap<C, PbOut<O>> for RepliedTo<C> {
    type Line = Step<C>;

    ghost image_of = { λ ss items. alone (below_pb items) };

    ghost has_followed = { λ map ss items. HasSeen map items };

    fn start(alloc: Global) -> Self {
        RepliedTo::new(alloc)
    }

    fn take<H: Handlers<Input = C>>(
        &mut self,
        _alloc: Global,
        _handlers: &H,
        _step: &Step<C>,
    ) -> Result<(), AllocError> {
        Ok(())
    }

    fn see<H: Handlers<Input = C>>(
        &mut self,
        alloc: Global,
        handlers: &H,
        seen: &[Item<C, PbOut<O>>],
    ) -> Result<(), AllocError> {
        self.see_all(alloc, handlers, seen)
    }

    fn into_image(self) -> Image<Step<C>> {
        self.into_taken()
    }
}
