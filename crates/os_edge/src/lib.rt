//! The edge over the system: the standard streams, and for a node a UDP socket, a directory of three files and a monotonic clock, as one
//! device. Neither tells anything of what it holds or does, so contracts know the counts of faults alone, and how each answer follows
//! from the system's. What the system does is trusted, and not proved.
#![tactic(auto)]

mod areas;
mod device;
mod device_examples;
mod looks;
mod sink;
mod socket;
mod source;
mod stopwatch;
mod stream_examples;

pub use device::{Counts, RealDevice};
pub use device_examples::{worked_answers, worked_leaving, worked_looks};
pub use sink::{StandardError, StandardOutput, WriterSink};
pub use source::{ReaderSource, StandardInput};
pub use stream_examples::{worked_faults, worked_reads, worked_writes};
