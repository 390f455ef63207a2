ghost use Rattle.std.specs.Prelude.{◌≡◌, ◌<◌, ◌++◌, OnOk};
ghost use Rattle.retry_xform.specs.Keeping.{rotated};
ghost use Rattle.retry_xform.specs.Retransmission.{again};

use crate::KeptPackets;
use handler_trait::{Effects, Handlers};
use std::alloc::{AllocError, Global};
use vst_base::RetryMsg;

/// Sends the first kept packet again, if there is one, and moves it to the end. After an `Err` all is given up.
pub(crate) fn resend<H: Handlers>(
    alloc: Global,
    handlers: &H,
    kept: &mut KeptPackets<H::Msg>,
    effects: &mut Effects<H::Output, RetryMsg<H::Msg>>,
) -> Result<(), AllocError>
    requires room { 0 < effects.old.send_places }
    ensures sends { OnOk result (effects.new.sends ≡ effects.old.sends ++ again kept.old) }
    ensures rotated { OnOk result (kept.new ≡ rotated kept.old) }
    ensures outputs { effects.new.outputs ≡ effects.old.outputs }
{
    if let Some((number, to, content)) = kept.first() {
        let inner = handlers.copy_msg(alloc, content)?;
        effects.send(to, RetryMsg::Data { number, inner });
    }
    kept.rotate();
    Ok(())
}
