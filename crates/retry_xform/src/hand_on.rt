ghost use Rattle.std.specs.Prelude.{◌≡◌, ◌+◌, ◌<◌, ◌≤◌, ◌^◌, ◌++◌, length, vec_len, OnOk};
ghost use Rattle.retry_xform.specs.Keeping.{AreBelow, numbered_from};
ghost use Rattle.retry_xform.specs.Retransmission.{all_as_data};

use crate::KeptPackets;
use handler_trait::{Effects, Handlers};
use std::alloc::{AllocError, Global};
use vst_base::{Node, RetryMsg};

// Hands on the packets, in order, each with the next number, and keeps a copy of each.
fn sends<H: Handlers>(
    alloc: Global,
    handlers: &H,
    within: Vec<(Node, H::Msg)>,
    next: &mut u64,
    kept: &mut KeptPackets<H::Msg>,
    effects: &mut Effects<H::Output, RetryMsg<H::Msg>>,
) -> Result<(), AllocError>
    requires room { vec_len within ≤ effects.old.send_places }
    requires fits { next.old + vec_len within < 2 ^ 64 }
    requires unused { AreBelow next.old kept.old }
    ensures sends { OnOk result (effects.new.sends ≡ effects.old.sends ++ all_as_data (numbered_from next.old within.items)) }
    ensures kept { OnOk result (kept.new ≡ kept.old ++ numbered_from next.old within.items) }
    ensures next { OnOk result (next.new ≡ next.old + vec_len within) }
    ensures room_left { OnOk result (effects.old.send_places ≤ effects.new.send_places + vec_len within) }
    ensures outputs { effects.new.outputs ≡ effects.old.outputs }
{
    for (to, content) in within {
        let inner = handlers.copy_msg(alloc, &content)?;
        kept.add(*next, to, content)?;
        effects.send(
            to,
            RetryMsg::Data {
                number: *next,
                inner,
            },
        );
        *next += 1;
    }
    Ok(())
}

/// Hands on what the handlers within made of an event, where the outputs were lent to them: takes these back, numbers the packets
/// from the next number on, and keeps a copy of each. After an `Err` all is given up.
pub(crate) fn hand_on<H: Handlers>(
    alloc: Global,
    handlers: &H,
    within: Effects<H::Output, H::Msg>,
    next: &mut u64,
    kept: &mut KeptPackets<H::Msg>,
    effects: &mut Effects<H::Output, RetryMsg<H::Msg>>,
) -> Result<(), AllocError>
    requires room { length within.sends ≤ effects.old.send_places }
    requires fits { next.old + length within.sends < 2 ^ 64 }
    requires unused { AreBelow next.old kept.old }
    ensures outputs { OnOk result (effects.new.outputs ≡ within.outputs) }
    ensures sends { OnOk result (effects.new.sends ≡ effects.old.sends ++ all_as_data (numbered_from next.old within.sends)) }
    ensures kept { OnOk result (kept.new ≡ kept.old ++ numbered_from next.old within.sends) }
    ensures next { OnOk result (next.new ≡ next.old + length within.sends) }
    ensures room_left { OnOk result (effects.old.send_places ≤ effects.new.send_places + length within.sends) }
{
    let sent = effects.take_back(within);
    sends(alloc, handlers, sent, next, kept, effects)
}
