//! The edge: what a program reads from and writes to, as traits, and the addresses of nodes. Each object counts its faults, and may tell
//! what it holds; a real stream tells none of it.
#![tactic(auto)]

mod device;
mod examples;
mod sink;
mod source;
mod whole;

pub use device::{Address, Begun};
pub use examples::{worked_counts, worked_reads, worked_writes};
pub use sink::{Sink, WriteOutcome};
pub use source::{ReadOutcome, Source};
pub use whole::{WriteFault, write_all};
