ghost use Rattle.std.specs.Prelude.{◌≡◌};
ghost use Rattle.node_state.specs.Calls.{done_of};

use node_device::Stored;
use std::alloc::AllocError;
use thiserror::Error;

/// Why a state was not saved. After either, the device is opened again before any save.
#[derive(Clone, Copy, Debug, PartialEq, Eq, Error)]
pub enum StateFault {
    /// A store call failed.
    #[error("a store call failed")]
    Store,
    /// Want of memory.
    #[error("out of memory")]
    Memory,
}

impl From<AllocError> for StateFault {
    ghost use Rattle.node_state.specs.declared.faults.StateFault.TheVariants as fault;

    ghost from_gives = { λ _ given. given ≡ fault.Memory };

    fn from(_e: AllocError) -> StateFault {
        StateFault::Memory
    }
}

// What a store call came to, as the call that makes it answers.
pub(crate) fn done(stored: Stored) -> Result<(), StateFault>
    ensures { result ≡ done_of stored }
{
    match stored {
        Stored::Done => Ok(()),
        Stored::Failed => Err(StateFault::Store),
        Stored::Memory => Err(StateFault::Memory),
    }
}
