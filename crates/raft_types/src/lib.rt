//! What clients ask of a Raft cluster and are told, what its nodes send each other, and what a node keeps
//! when it stops (the Raft paper, Figure 2), each in its range. It knows nothing of what a node does with
//! them, or of how they are written as bytes.
#![tactic(auto)]

mod append;
mod appended;
mod client;
mod entries;
mod examples;
mod kept;
mod limits;
mod msg;
mod read_msg;
mod request_vote;
mod vote;

pub use append::Append;
pub use appended::Appended;
pub use client::{RaftInput, RaftOut};
pub use entries::Entries;
pub use examples::{worked_messages, worked_ranges};
pub use kept::Kept;
pub use limits::{MAX_BATCH, MAX_INDEX, MAX_ROUND};
pub use msg::RaftMsg;
pub use read_msg::ReadMsg;
pub use request_vote::RequestVote;
pub use vote::Vote;
pub use vst_base::MAX_NODES;
