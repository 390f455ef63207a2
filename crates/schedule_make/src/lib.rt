//! Schedules that are made from a number, step by step: each step is one that the network allows, chosen by random words in the
//! world that the steps before it make. It knows nothing of lines.
#![tactic(auto)]

mod drawing;
mod examples;
mod inputs;
mod laws;
mod making;
mod rows;
mod turning;
mod words;

pub use examples::{worked, worked_candidates, worked_flights, worked_inputs, worked_order};
pub use inputs::{ByClients, KvInputs, LockInputs, MakesInputs, MirrorInputs, TableInputs};
pub use laws::made_schedules_are_allowed;
pub use making::Making;
pub use rows::{worked_backups, worked_clusters, worked_locks};
pub use words::Words;
