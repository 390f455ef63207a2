//! Which acts on the three areas open and save the state of a Raft node, what the node knows of its areas between two saves, and what
//! a crash leaves at each moment of these. It knows nothing of devices.
#![tactic(auto)]

mod examples;
mod held_examples;
mod laws;

pub use examples::{worked_openings, worked_saves, worked_terms};
pub use held_examples::{worked_finding, worked_found, worked_holding};
pub use laws::{openings_leave_between, openings_leave_what_they_find, saves_keep_states};
