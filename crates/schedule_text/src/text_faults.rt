ghost use Rattle.std.specs.Prelude.{◌≡◌, ◌+◌};
ghost use Rattle.schedule_text.specs.Streams.{text_fault};
ghost use Rattle.schedule_text.specs.declared.text_faults.TextFault.TheVariants.{Memory};

use line_reader::{ReadFault, Reader, Why};
use std::alloc::AllocError;
use thiserror::Error;

/// Why a text was not read.
#[derive(Clone, Copy, Debug, PartialEq, Eq, Error)]
pub enum TextFault {
    /// A read failed.
    #[error("the input cannot be read")]
    Read,
    /// Want of memory.
    #[error("out of memory")]
    Memory,
    /// This line is refused, numbered from 1.
    #[error("line {line} is refused")]
    Refused { line: u32, why: Why },
}

impl From<AllocError> for TextFault {
    ghost from_gives = { λ _ fault. fault ≡ Memory };

    fn from(_: AllocError) -> Self {
        TextFault::Memory
    }
}

/// Why a text was not read whose next line was not, by the fault of that line. One that ends too early is refused at the line after
/// its last.
pub fn text_fault(reader: &Reader, fault: ReadFault) -> TextFault
    ensures { result ≡ text_fault (reader.now.number + 1) fault }
{
    match fault {
        ReadFault::End => TextFault::Refused {
            line: reader.next_number(),
            why: Why::Header,
        },
        ReadFault::Read => TextFault::Read,
        ReadFault::Memory => TextFault::Memory,
        ReadFault::Refused { line, why } => TextFault::Refused { line, why },
    }
}
