ghost use Rattle.std.specs.Prelude.{◌≡◌};
ghost use Rattle.node_config.specs.declared.fault.ConfigFault.TheVariants.{Memory};

use crate::ConfigKey;
use std::alloc::AllocError;
use thiserror::Error;

/// Why there is no configuration.
#[derive(Clone, Copy, Debug, PartialEq, Eq, Error)]
pub enum ConfigFault {
    /// A read failed.
    #[error("the configuration cannot be read")]
    Read,
    /// The configuration is refused for this key.
    #[error("the configuration is refused")]
    Refused(ConfigKey),
    /// Want of memory.
    #[error("out of memory")]
    Memory,
}

impl From<AllocError> for ConfigFault {
    ghost from_gives = { λ _ fault. fault ≡ Memory };

    fn from(_: AllocError) -> Self {
        ConfigFault::Memory
    }
}
