ghost use Rattle.std.specs.Prelude.{◌≡◌, ◌≤◌, ◌++◌, length, vec_len, OnOk};
ghost use Rattle.wired.specs.Wiring.{sent};

use crate::{Cluster, Packet};
use handler_trait::Effects;
use std::alloc::{AllocError, Global};
use vst_base::Node;
use wire_messages::Wire;

// Hands on the messages, in order, each as the packet of its bytes.
fn sends<O: Drop, M: Wire>(
    alloc: Global,
    cluster: &Cluster,
    from: Node,
    within: Vec<(Node, M)>,
    effects: &mut Effects<O, Packet>,
) -> Result<(), AllocError>
    requires room { vec_len within ≤ effects.old.send_places }
    ensures sends { OnOk result (effects.new.sends
        ≡ effects.old.sends ++ sent M.format cluster.now.stack cluster.now.name from within.items) }
    ensures outputs { effects.new.outputs ≡ effects.old.outputs }
{
    for (to, message) in within {
        let packet = Packet::of_message(alloc, cluster, from, to, &message)?;
        effects.send(to, packet);
    }
    Ok(())
}

/// Hands on what the handlers within made of an event at a node, where the outputs were lent to them: takes these back, and sends
/// the messages as packets.
pub(crate) fn hand_on<O: Drop, M: Wire>(
    alloc: Global,
    cluster: &Cluster,
    from: Node,
    within: Effects<O, M>,
    effects: &mut Effects<O, Packet>,
) -> Result<(), AllocError>
    requires room { length within.sends ≤ effects.old.send_places }
    ensures outputs { OnOk result (effects.new.outputs ≡ within.outputs) }
    ensures sends { OnOk result (effects.new.sends
        ≡ effects.old.sends ++ sent M.format cluster.now.stack cluster.now.name from within.sends) }
{
    let sent = effects.take_back(within);
    sends(alloc, cluster, from, sent, effects)
}
