//! Raft with snapshots (the Raft paper, section 7), as functions over any machine: a node's log begins at what its snapshot holds,
//! and a leader whose log no longer has what a node lacks sends it the snapshot, piece by piece. It knows nothing of what the
//! machine does, and changes nothing of Raft.
#![tactic(auto)]

mod examples;
mod laws;

pub use examples::{worked_leaders, worked_logs, worked_pieces, worked_starts};
pub use laws::{plain_is_raft, whole_logs};
