ghost use Rattle.std.specs.Prelude.{◌≡◌, ◌+◌, ◌<◌, ◌≤◌, ◌^◌, ◌++◌, length, vec_len};
ghost use Rattle.seqnum_xform.specs.Numbering.{numbered_from};

use handler_trait::Effects;
use vst_base::{Node, SeqMsg};

// Hands on the packets, in order, each with the next number.
fn sends<O: Drop, M: Drop>(
    within: Vec<(Node, M)>,
    next: &mut u64,
    effects: &mut Effects<O, SeqMsg<M>>,
)
    requires room { vec_len within ≤ effects.old.send_places }
    requires fits { next.old + vec_len within < 2 ^ 64 }
    ensures sends { effects.new.sends ≡ effects.old.sends ++ numbered_from next.old within.items }
    ensures next { next.new ≡ next.old + vec_len within }
    ensures outputs { effects.new.outputs ≡ effects.old.outputs }
{
    for (to, inner) in within {
        effects.send(
            to,
            SeqMsg {
                number: *next,
                inner,
            },
        );
        *next += 1;
    }
}

/// Hands on what the handlers within made of an event, where the outputs were lent to them: takes these back, and numbers the packets
/// from the next number on.
pub(crate) fn hand_on<O: Drop, M: Drop>(
    within: Effects<O, M>,
    next: &mut u64,
    effects: &mut Effects<O, SeqMsg<M>>,
)
    requires room { length within.sends ≤ effects.old.send_places }
    requires fits { next.old + length within.sends < 2 ^ 64 }
    ensures outputs { effects.new.outputs ≡ within.outputs }
    ensures sends { effects.new.sends ≡ effects.old.sends ++ numbered_from next.old within.sends }
    ensures next { next.new ≡ next.old + length within.sends }
{
    let sent = effects.take_back(within);
    sends(sent, next, effects);
}
