//! The areas of a cluster's nodes, on which states are saved and found as real nodes do it, act by act: they keep to what a network of
//! single acts asks of a disk, so one machine explains what clients see where a node stops between any two acts.
#![tactic(auto)]

mod examples;
mod laws;

pub use examples::{worked_premises, worked_stops};
pub use laws::{nodes_are_linearizable, nodes_are_linearizable_between};
