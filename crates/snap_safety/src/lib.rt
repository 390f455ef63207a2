//! Clusters with snapshots are safe on a network that fails, and clients see one machine. It knows the handlers as functions
//! alone, and no code.
#![tactic(auto)]

mod examples;
mod safety;

pub use examples::{worked_lists, worked_mirrors, worked_runs};
pub use safety::laws;
