//! The top call of the program: from its words, its input and its device to what it writes and its status.
#![tactic(auto)]

mod answers;
mod examples;

pub use answers::run;
pub use examples::{worked_headlines, worked_nodes, worked_requests, worked_texts};
