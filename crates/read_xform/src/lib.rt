//! Raft with reads that take no entry of the log, as code (ReadIndex: Ongaro's dissertation, section 6.4): it runs Raft's own
//! handlers, gives each message a round, and lets reads wait at a leader until a quorum has acknowledged theirs. It knows of the machine
//! only which commands read.
#![tactic(auto)]

mod answering;
mod hand_on;
mod read_raft;
mod reads;
mod rounds;
mod state;
mod waiting;

pub use read_raft::ReadRaft;
pub use state::ReadState;
pub use waiting::Waiting;
