//! The texts of what a Raft cluster's clients ask and are told, over the texts of any machine: a request is
//! the client's number, its own number and the machine's command, and each answer names them again. Which of
//! the lines of a schedule are a cluster's own is here too: its headers, and the lines of an order of requests. It
//! knows nothing of runs.
#![tactic(auto)]

mod answers;
mod examples;
mod laws;
mod names;
mod order;
mod raft_text;

pub use examples::{worked_inputs, worked_outputs};
pub use laws::headers_give_cluster_sizes;
pub use raft_text::RaftText;
