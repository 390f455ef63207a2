ghost use Rattle.std.specs.Prelude.{◌≡◌};
ghost use Rattle.line_reader.specs.declared.read_fault.ReadFault.TheVariants.{Memory};

use crate::Why;
use std::alloc::AllocError;
use thiserror::Error;

/// Why a line was not read.
#[derive(Clone, Copy, Debug, PartialEq, Eq, Error)]
pub enum ReadFault {
    /// The text has no further line.
    #[error("no further line")]
    End,
    /// A read failed.
    #[error("the input cannot be read")]
    Read,
    /// Want of memory.
    #[error("out of memory")]
    Memory,
    /// This line is refused, numbered from 1.
    #[error("line {line} is refused")]
    Refused { line: u32, why: Why },
}

impl From<AllocError> for ReadFault {
    ghost from_gives = { λ _ fault. fault ≡ Memory };

    fn from(_: AllocError) -> Self {
        ReadFault::Memory
    }
}
