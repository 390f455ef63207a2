//! Primary-backup: a machine is carried to two nodes. The primary, node 0, has the backup, node 1, apply each command before it
//! does so itself and replies, one at a time. It knows nothing of what the machine does.
#![tactic(auto)]

mod backup;
mod examples;
mod one_machine;
mod rules;
mod state;

pub use backup::PrimaryBackup;
pub use examples::{worked, worked_traces};
pub use one_machine::one_machine_explains;
pub use state::PbState;
