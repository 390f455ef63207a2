//! The command set of the program: which words it takes, and what they ask for.
#![tactic(auto)]

mod asked;
mod command;
mod command_set;
mod examples;
mod laws;
mod words;

pub use asked::{Asked, MAX_TURNS, NodeWords};
pub use command::{Command, MadeSchedule};
pub use examples::{worked, worked_nodes, worked_schedules};
pub use laws::{asked_nodes_can_be_run, asked_schedules_can_be_made};
pub use words::read_words;
