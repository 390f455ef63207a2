//! Raft with free choices, for any number of nodes, and its safety over every run: what a leader or a
//! follower does, and when, is free within the rules. It reads nothing of an entry but its term, and
//! knows nothing of handlers, schedules, machines or clients.
#![tactic(auto)]

mod safety;
mod stories;

pub use safety::{commits_are_possible, entries_are_proposed, refusals_never_come, safety_of_raft};
pub use stories::{worked_freedoms, worked_runs};
