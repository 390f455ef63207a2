//! Which entries of a node's log one event leaves, so that a node can save what is new without going through its log. It knows what the
//! rules of Raft make of a log, and nothing of devices.
#![tactic(auto)]

mod examples;
mod laws;
mod left;

pub use examples::{worked_continuing, worked_lefts};
pub use laws::{events_keep_nodes_sound, events_leave_logs, terms_are_counted_on};
pub use left::left_by;
