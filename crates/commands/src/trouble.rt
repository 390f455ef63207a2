use node_config::{ConfigFault, ConfigKey};
use std::alloc::AllocError;
use thiserror::Error;
use udp_node::NodeFault;

/// Why a node did not take all its turns, as its run says it.
#[derive(Clone, Copy, Debug, PartialEq, Eq, Error)]
pub enum Trouble {
    /// A read of the configuration failed.
    #[error("the configuration cannot be read")]
    Read,
    /// The configuration is refused for this key.
    #[error("the configuration is refused")]
    Config(ConfigKey),
    /// The device could not begin.
    #[error("the device could not begin")]
    Begin,
    /// The node ended by this fault.
    #[error("the node ended before its last turn")]
    Ended(NodeFault),
    /// Want of memory before the device had begun.
    #[error("out of memory")]
    Memory,
}

impl From<AllocError> for Trouble {
    ghost use Rattle.std.specs.Prelude.{◌≡◌};
    ghost use Rattle.commands.specs.declared.trouble.Trouble.TheVariants as trouble;

    ghost from_gives = { λ _ given. given ≡ trouble.Memory };

    fn from(_e: AllocError) -> Trouble {
        Trouble::Memory
    }
}

impl From<ConfigFault> for Trouble {
    ghost use Rattle.std.specs.Prelude.{◌≡◌};
    ghost use Rattle.commands.specs.NodeComing.{trouble_of};

    ghost from_gives = { λ fault given. given ≡ trouble_of fault };

    fn from(fault: ConfigFault) -> Trouble {
        match fault {
            ConfigFault::Read => Trouble::Read,
            ConfigFault::Refused(key) => Trouble::Config(key),
            ConfigFault::Memory => Trouble::Memory,
        }
    }
}

impl From<NodeFault> for Trouble {
    ghost use Rattle.std.specs.Prelude.{◌≡◌};
    ghost use Rattle.commands.specs.declared.trouble.Trouble.TheVariants as trouble;

    ghost from_gives = { λ fault given. given ≡ trouble.Ended fault };

    fn from(fault: NodeFault) -> Trouble {
        Trouble::Ended(fault)
    }
}
