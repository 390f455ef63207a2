ghost use Rattle.std.specs.Prelude.{◌<◌};
ghost use Rattle.handler_trait.specs.declared.handlers.TheConstants.{MAX_SENDS};

use crate::{Echo, Handlers};

/// Handlers of which no event sends as many packets as it may: so there is room for one packet more in each event.
pub trait LeavesRoom: Handlers {
    /// An event sends fewer packets than `MAX_SENDS`.
    ghost leaves_room: { Self.SENDS < MAX_SENDS };
}

impl LeavesRoom for Echo {
    ghost use Rattle.std.proofs.Common.{arith};

    ghost leaves_room = { omega arith };
}
