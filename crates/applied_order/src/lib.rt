//! What a Raft cluster has applied so far, kept as it grows: how many entries, and the requests of them that
//! were executed. It looks at each entry once, and knows nothing of how a step is taken.
#![tactic(auto)]

mod examples;
mod following;
mod order;

pub use examples::worked_orders;
pub use order::AppliedOrder;
