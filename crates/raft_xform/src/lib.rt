//! Raft: a machine is carried to a cluster of nodes that fail (the Raft paper, Figure 2). It knows nothing of
//! what the machine does.
#![tactic(auto)]

mod applying;
mod copying;
mod electing;
mod examples;
mod leading;
mod raft;
mod reading;
mod replicating;
mod role;
mod seat;
mod sending;
mod soundness;
mod state;

pub use examples::{
    worked_elections, worked_leaders, worked_refusals, worked_replication, worked_runs,
};
pub use raft::Raft;
pub use role::Role;
pub use soundness::{events_keep_a_node_sound, sends_are_in_range};
pub use state::RaftState;
