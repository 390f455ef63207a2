//! What is made of a run of a cluster whose reads take no entry of the log: the order of what it has served, found by watching the
//! run, and the refusal of a pair of a client and a number that is used again where a read is concerned. It knows nothing of how a node
//! answers a read.
#![tactic(auto)]

mod checked;
mod examples;
mod following;
mod foreseeing;
mod laws;
mod pairs;
mod placing;
mod served;
mod whole;

pub use checked::PairChecked;
pub use examples::{worked_orders, worked_pairs};
pub use foreseeing::Foresees;
pub use laws::pairs_are_unused;
pub use pairs::UsedPairs;
pub use served::ServedOrder;
pub use whole::run_to_end;
