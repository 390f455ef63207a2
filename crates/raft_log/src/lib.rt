//! The log of a Raft node: what its entries are, whether another log is up to date for it, and what a
//! leader's entries make of it (the Raft paper, Figure 2 and sections 5.3 and 5.4.1). It knows nothing of
//! messages, elections or what is applied.
#![tactic(auto)]

mod accept;
mod copies;
mod examples;
mod log;

pub use accept::Accept;
pub use copies::{copy_entries, copy_entry};
pub use examples::worked_answers;
pub use log::Log;
