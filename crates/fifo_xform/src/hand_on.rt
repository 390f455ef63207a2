ghost use Rattle.std.specs.Prelude.{◌≡◌, ◌+◌, ◌<◌, ◌≤◌, ◌^◌, ◌++◌, length, vec_len, OnOk};
ghost use Rattle.fifo_xform.specs.Fifo.{counted, numbered_by};
ghost use Rattle.fifo_xform.specs.Peers.{numbered_packets};

use crate::Peers;
use handler_trait::Effects;
use std::alloc::{AllocError, Global};
use vst_base::{Node, SeqMsg};

// Hands on the packets, in order, each with the next number of its destination.
fn sends<O: Drop, M: Drop>(
    alloc: Global,
    within: Vec<(Node, M)>,
    peers: &mut Peers<M>,
    effects: &mut Effects<O, SeqMsg<M>>,
) -> Result<(), AllocError>
    requires room { vec_len within ≤ effects.old.send_places }
    requires fits { numbered_packets peers.old + vec_len within < 2 ^ 64 }
    ensures sends { OnOk result (effects.new.sends ≡ effects.old.sends ++ numbered_by peers.old within.items) }
    ensures peers { OnOk result (peers.new ≡ counted peers.old within.items) }
    ensures outputs { OnOk result (effects.new.outputs ≡ effects.old.outputs) }
{
    for (to, inner) in within {
        let number = peers.count(alloc, to)?;
        effects.send(to, SeqMsg { number, inner });
    }
    Ok(())
}

/// Hands on what the handlers within made of an event, where the outputs were lent to them: takes these back, and numbers the packets
/// by destination. After an `Err` all is given up.
pub(crate) fn hand_on<O: Drop, M: Drop>(
    alloc: Global,
    within: Effects<O, M>,
    peers: &mut Peers<M>,
    effects: &mut Effects<O, SeqMsg<M>>,
) -> Result<(), AllocError>
    requires room { length within.sends ≤ effects.old.send_places }
    requires fits { numbered_packets peers.old + length within.sends < 2 ^ 64 }
    ensures outputs { OnOk result (effects.new.outputs ≡ within.outputs) }
    ensures sends { OnOk result (effects.new.sends ≡ effects.old.sends ++ numbered_by peers.old within.sends) }
    ensures peers { OnOk result (peers.new ≡ counted peers.old within.sends) }
{
    let sent = effects.take_back(within);
    sends(alloc, sent, peers, effects)
}
