//! Reads that take no entry of the log (ReadIndex: Ongaro's dissertation, section 6.4), over Raft of a machine. It
//! knows nothing of what the machine does, and changes nothing of Raft.
#![tactic(auto)]

mod examples;
mod laws;

pub use examples::{worked_drops, worked_reads, worked_rounds};
pub use laws::{erases_to_raft, reads_are_dropped};
