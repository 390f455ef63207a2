//! The verdict on the text of a claim, by the stack that it is a claim on, and its laws: what a yes and a no mean, from the bytes of a
//! text on, and that a check of what a replay wrote is permitted.
#![tactic(auto)]

mod backup_rows;
mod checking;
mod claim_examples;
mod cluster_rows;
mod fault;
mod faults;
mod laws;
mod limit_rows;
mod outcome_examples;
mod refusal_rows;
mod replay_examples;
mod schedule_rows;

pub use backup_rows::worked_backups;
pub use checking::check;
pub use claim_examples::worked_claims;
pub use claim_verdicts::Verdict;
pub use cluster_rows::worked_clusters;
pub use fault::CheckFault;
pub use laws::{permitted_claims_are_explained, replays_are_permitted, stacks_are_spelled};
pub use limit_rows::{worked_conditions, worked_limits};
pub use outcome_examples::worked_outcomes;
pub use refusal_rows::{worked_breaks, worked_refusals};
pub use replay_examples::worked_replays;
pub use schedule_rows::worked_schedules;
