//! What a leader of Raft knows of the other nodes' logs, what their answers make of it, which entries it
//! sends them and how far it may commit (the Raft paper, Figure 2 and sections 5.3 and 5.4.2). It knows
//! nothing of messages, elections or what is applied.
#![tactic(auto)]

mod batch;
mod commit;
mod examples;
mod peer;

pub use batch::next_batch;
pub use commit::advance;
pub use examples::{worked_answers, worked_batches, worked_commits};
pub use peer::{Moved, Peer};
