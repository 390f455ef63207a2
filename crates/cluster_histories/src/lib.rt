//! Nodes of a cluster that store what they decide before anything of it goes out, and hear only what was said to them, are a run
//! of the network that fails, wherever they stop; and one machine explains what clients of Raft nodes note. It knows of a node's
//! areas only what they open as, and nothing of datagrams, disks and clocks.
#![tactic(auto)]

mod examples;
mod laws;

pub use examples::{worked_clusters, worked_deeds, worked_moves, worked_parts, worked_votes};
pub use laws::{clients_see_one_machine, deeds_are_moves, moves_are_runs};
