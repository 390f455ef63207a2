ghost use Rattle.std.specs.Prelude.{◌≡◌, ℕ, List, ◌++◌, OnOk};
ghost use Rattle.fifo_observer.specs.Channels.{Follows, ends_in};
ghost use Rattle.vst_base.specs.declared.step.Step.{Step};
ghost use Rattle.xform_stack.specs.Systems.{world_of};

use crate::Channels;
use handler_trait::Handlers;
use std::alloc::{AllocError, Global};
use xform_stack::Network;

/// Adds the packets that were sent after those that there are. After an `Err` the channels are given up.
pub(crate) fn catch_up<H: Handlers, W: Network<H>>(
    channels: &mut Channels,
    alloc: Global,
    network: &W,
) -> Result<(), AllocError>
    requires { W.sound network.now }
    ensures { OnOk result ((ss : List (Step H.Input)) (es more : List (ℕ × ℕ)) → W.follows network.now ss
        → ends_in (world_of (W.system network.now) ss).packets ≡ es ++ more → Follows channels.old es
        → Follows channels.new (es ++ more)) }
{
    for k in channels.len()..network.sent() {
        let Some((source, destination)) = network.ends(k) else {
            return Ok(());
        };
        channels.push(alloc, source, destination)?;
    }
    Ok(())
}
