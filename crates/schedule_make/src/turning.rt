// The packets in flight of a network that keeps their order.
ghost use Rattle.std.specs.Prelude.{◌≡◌, ◌<◌, ◌-◌, ◌^◌, [], ◌∷◌, ◌++◌, length, true, Some, None, IfSome, OnOk, slice_set, if◌then◌else◌};
ghost use Rattle.std.specs.Option.{option_map};
ghost use Rattle.flight_index.specs.Turns.{is_first};
ghost use Rattle.vst_base.specs.Nets.{keeps_order};
ghost use Rattle.vst_base.specs.declared.node.TheConstants.{MAX_NODES};

use flight_index::TurnIndex;
use std::alloc::{AllocError, Global};
use vst_base::{Net, Node};

// No packet yet, where the network keeps their order.
pub(crate) fn first_turns(alloc: Global, net: Net) -> Option<TurnIndex>
    ensures { result ≡ (if keeps_order net then Some [] else None) }
{
    if net.keeps_order() {
        Some(TurnIndex::new(alloc))
    } else {
        None
    }
}

// A packet was sent from its source to its destination.
pub(crate) fn join(turns: &mut Option<TurnIndex>, ends: (Node, Node)) -> Result<(), AllocError>
    requires node { ends.1 < MAX_NODES }
    requires room { IfSome turns.old (λ ps. length ps < 2 ^ 32 - 1) }
    ensures { OnOk result (turns.new ≡ option_map (λ ps. ps ++ Some ends ∷ []) turns.old) }
{
    match turns {
        Some(turns) => turns.sent(ends.0, ends.1),
        None => Ok(()),
    }
}

// No copy of packet `k` is in flight any more.
pub(crate) fn leave(turns: &mut Option<TurnIndex>, k: u32)
    requires { IfSome turns.old (λ ps. is_first ps k ≡ true) }
    ensures { turns.new ≡ option_map (λ ps. slice_set ps k None) turns.old }
{
    if let Some(turns) = turns {
        turns.gone(k);
    }
}
