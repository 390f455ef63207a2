use thiserror::Error;

/// Why a schedule was not made to its end. A front of its text was written.
#[derive(Clone, Copy, Debug, PartialEq, Eq, Error)]
pub enum MakeFault {
    /// A write failed.
    #[error("the output cannot be written")]
    Write,
    /// Want of memory.
    #[error("out of memory")]
    Memory,
}
