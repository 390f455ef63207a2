ghost use Rattle.std.specs.Prelude.{◌≡◌, [], IfOk};
ghost use Rattle.net_semantics.specs.BelowPb.{below_pb};
ghost use Rattle.net_semantics.specs.Once.{once};
ghost use Rattle.trace_maps.specs.SingleNode.{alone};

use crate::{Image, Itself, RepliedTo, TraceMap, WithoutRepeats};
use handler_trait::Handlers;
use std::alloc::{AllocError, Global};
use vst_base::{Item, PbOut, Step};

// The image of these steps alone.
fn image_of<H: Handlers, T: TraceMap<H::Input, H::Output>>(
    alloc: Global,
    handlers: &H,
    steps: &[Step<H::Input>],
) -> Result<Image<T::Line>, AllocError>
    ensures { IfOk result (λ image. image ≡ T.image_of steps.now []) }
{
    let mut map = T::start(alloc);
    for step in steps {
        map.take(alloc, handlers, step)?;
    }
    Ok(map.into_image())
}

/// What is left of a schedule without copies, and without each delivery of a packet that was delivered before.
pub fn once<H: Handlers>(
    alloc: Global,
    handlers: &H,
    steps: &[Step<H::Input>],
) -> Result<Vec<Step<H::Input>>, AllocError>
    ensures { IfOk result (λ left. left.items ≡ once steps.now) }
{
    let left = image_of::<H, WithoutRepeats<Itself<H::Input>>>(alloc, handlers, steps)?;
    Ok(left.into_lines())
}

/// The schedule of a machine alone that explains a trace of primary-backup: as many of the first inputs at the primary as there
/// are replies there.
pub fn below_primary_backup<H: Handlers, O>(
    alloc: Global,
    handlers: &H,
    items: &[Item<H::Input, PbOut<O>>],
) -> Result<Vec<Step<H::Input>>, AllocError>
    ensures { IfOk result (λ steps. steps.items ≡ alone (below_pb items.now)) }
{
    let mut below = RepliedTo::new(alloc);
    below.see_all(alloc, handlers, items)?;
    Ok(below.into_taken().into_lines())
}
