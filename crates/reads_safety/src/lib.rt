//! Clusters with reads that take no entry of the log are safe on a network that fails, and clients see one machine. It knows
//! the handlers as functions alone, and no code.
#![tactic(auto)]

mod examples;
mod safety;

pub use examples::{worked_orders, worked_premises, worked_runs, worked_starts};
pub use safety::laws;
