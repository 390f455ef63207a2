//! The verdict on a claim: whether an image explains a trace. It knows nothing of how either came about, nor of stacks.
#![tactic(auto)]

mod answering;
mod backup;
mod cluster;
mod comparison;
mod difference;
mod examples;
mod explaining;
mod laws;
mod lines;
mod mark;
mod marking;
mod name;
mod names;
mod numbering;
mod outputs;
mod redirecting;
mod schedule;
mod text_pair;
mod verdict;

pub use backup::backup_verdict;
pub use cluster::cluster_verdict;
pub use examples::worked_comparisons;
pub use laws::{yes_is_linearizable, yes_is_one_machine, yes_is_what_clients_see};
pub use schedule::schedule_verdict;
pub use verdict::Verdict;
