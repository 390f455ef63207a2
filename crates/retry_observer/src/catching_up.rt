ghost use Rattle.std.specs.Prelude.{◌≡◌, ℕ, ◌+◌, ◌<◌, ◌^◌, List, [], ◌∷◌, ◌++◌, Option, length, OnOk};
ghost use Rattle.retry_observer.specs.Places.{ComeAfter, Comes, Follows, numbers_in};
ghost use Rattle.vst_base.specs.declared.step.Step.{Step};
ghost use Rattle.xform_stack.specs.Systems.{world_of};

use crate::Places;
use handler_trait::LeavesRoom;
use retry_xform::Retry;
use std::alloc::{AllocError, Global};
use vst_base::Node;
use xform_stack::Network;

// Adds a packet of this source: one that is known, and carries this, or new data.
fn add(
    places: &mut Places,
    alloc: Global,
    source: Node,
    is_known: bool,
    carried: Option<u32>,
) -> Result<(), AllocError>
    requires { length places.old.carried + 1 < 2 ^ 32 }
    ensures follows { OnOk result ((bs : List (ℕ × Option ℕ)) (o : Option ℕ) → Follows places.old bs → Comes is_known carried bs source o
        → Follows places.new (bs ++ (source, o) ∷ [])) }
    ensures len { OnOk result (length places.new.carried ≡ length places.old.carried + 1) }
{
    if is_known {
        places.push_known(carried)
    } else {
        places.push_new(alloc, source)
    }
}

/// Adds the packets that were sent after those that there are: each is new data, but for the last one where that is known, and carries
/// this. After an `Err` the places are given up.
pub(crate) fn catch_up<H: LeavesRoom, W: Network<Retry<H>>>(
    places: &mut Places,
    alloc: Global,
    network: &W,
    known: bool,
    carried: Option<u32>,
) -> Result<(), AllocError>
    requires { W.sound network.now }
    ensures { OnOk result ((ss : List (Step H.Input)) (bs more : List (ℕ × Option ℕ)) → W.follows network.now ss
        → numbers_in (world_of (W.system network.now) ss).packets ≡ bs ++ more → ComeAfter (length bs) known carried (bs ++ more)
        → Follows places.old bs → Follows places.new (bs ++ more)) }
{
    let sent = network.sent();
    for k in places.len()..sent {
        let Some(ends) = network.ends(k) else {
            return Ok(());
        };
        let is_known = known && k + 1 == sent;
        add(places, alloc, ends.0, is_known, carried)?;
    }
    Ok(())
}
