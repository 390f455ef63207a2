use schedule_text::Why;
use thiserror::Error;

/// Why a replay did not come to its end.
#[derive(Clone, Copy, Debug, PartialEq, Eq, Error)]
pub enum ReplayFault {
    /// A read failed. The trace of the whole lines before it was written.
    #[error("the input cannot be read")]
    Read,
    /// A write failed. A front of the output was written.
    #[error("the output cannot be written")]
    Write,
    /// A line is refused. The trace of the steps before it was written.
    #[error("line {line} is refused")]
    Refused { line: u32, why: Why },
    /// Want of memory. A front of the output was written.
    #[error("out of memory")]
    Memory,
}
