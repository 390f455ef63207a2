//! The edge over memory, for tests and theorems: sources and sinks that tell their bytes, follow a script
//! of failing calls and cut what they move, and a steady form of each that never fails.
#![tactic(auto)]

mod examples;
mod sink;
mod source;
mod unread;

pub use examples::{worked_reads, worked_scripts, worked_steady_writes, worked_writes};
pub use sink::{MemorySink, SteadySink};
pub use source::{MemorySource, SteadySource};
