//! The commands of the program: those that go from texts to texts (replay, check, make, and make with a summary), and that of a node,
//! which reads the configuration, begins on the device, takes its turns, and says how they ended. What is seen of the streams of a run, the
//! statuses of the program and the lines on its error stream stand here too, and how words are read does not.
#![tactic(auto)]

mod checking;
mod commands;
mod complaint;
mod examples;
mod line_examples;
mod make_examples;
mod making;
mod node;
mod node_examples;
mod node_lines;
mod node_running;
mod node_telling;
mod node_told_examples;
mod replaying;
mod saying;
mod status;
mod status_examples;
mod telling;
mod trouble;

pub use commands::run_command;
pub use complaint::Complaint;
pub use examples::{worked, worked_breaks};
pub use line_examples::worked_lines;
pub use make_examples::{worked_make_statuses, worked_making};
pub use node::run_node;
pub use node_examples::{
    worked_comings, worked_ends, worked_failures, worked_node_counts, worked_node_lines,
    worked_node_statuses,
};
pub use node_told_examples::{worked_endings, worked_turns};
pub use saying::{push_numbered, say, say_made, say_memory};
pub use status::{
    AREAS_REFUSED, CONDITION_FALSE, DONE, INPUT_REFUSED, LISTENING_FAILED, OUT_OF_MEMORY,
    READ_FAILED, STORE_FAILED, WORDS_REFUSED, WRITE_FAILED,
};
pub use status_examples::{worked_complaints, worked_counts, worked_statuses, worked_tellings};
pub use telling::tell;
pub use trouble::Trouble;
