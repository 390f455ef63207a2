//! What a proof remembers of a run of Raft, and why what was committed stays: logs that agree up to an
//! index, histories of elections and acknowledgements, and what always holds of them. It knows
//! nodes by their numbers alone, and no packets or events.
#![tactic(auto)]

mod examples;
mod keeping;

pub use examples::worked_histories;
pub use keeping::{accepted_logs, committed_logs};
