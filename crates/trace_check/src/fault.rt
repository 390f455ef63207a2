use line_reader::Why;
use thiserror::Error;

/// Why a check came to no verdict.
#[derive(Clone, Copy, Debug, PartialEq, Eq, Error)]
pub enum CheckFault {
    /// A read failed. No whole line before it is refused.
    #[error("the input cannot be read")]
    Read,
    /// This line is the first that is refused.
    #[error("line {line} is refused")]
    Refused { line: u32, why: Why },
    /// Want of memory.
    #[error("out of memory")]
    Memory,
}
