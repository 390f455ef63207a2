use node_state::{OpenFault, Refusal, StateFault};
use std::alloc::AllocError;
use thiserror::Error;

/// Why a node ended before its last turn.
#[derive(Clone, Copy, Debug, PartialEq, Eq, Error)]
pub enum NodeFault {
    /// A receive failed.
    #[error("a receive failed")]
    Receive,
    /// A store call failed.
    #[error("a store call failed")]
    Store,
    /// What its areas hold is not this node's state. Nothing was written or cut.
    #[error("the areas are refused")]
    Refused(Refusal),
    /// Want of memory.
    #[error("out of memory")]
    Memory,
}

impl From<AllocError> for NodeFault {
    ghost use Rattle.std.specs.Prelude.{◌≡◌};
    ghost use Rattle.udp_node.specs.declared.fault.NodeFault.TheVariants as fault;

    ghost from_gives = { λ _ given. given ≡ fault.Memory };

    fn from(_e: AllocError) -> NodeFault {
        NodeFault::Memory
    }
}

impl From<StateFault> for NodeFault {
    ghost use Rattle.std.specs.Prelude.{◌≡◌};
    ghost use Rattle.udp_node.specs.Causes.{fault_of_state};

    ghost from_gives = { λ fault given. given ≡ fault_of_state fault };

    fn from(fault: StateFault) -> NodeFault {
        match fault {
            StateFault::Store => NodeFault::Store,
            StateFault::Memory => NodeFault::Memory,
        }
    }
}

impl From<OpenFault> for NodeFault {
    ghost use Rattle.std.specs.Prelude.{◌≡◌};
    ghost use Rattle.udp_node.specs.Causes.{fault_of_opening};

    ghost from_gives = { λ fault given. given ≡ fault_of_opening fault };

    fn from(fault: OpenFault) -> NodeFault {
        match fault {
            OpenFault::Store => NodeFault::Store,
            OpenFault::Memory => NodeFault::Memory,
            OpenFault::Refused(why) => NodeFault::Refused(why),
        }
    }
}
