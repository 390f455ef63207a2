//! What clients of a Raft cluster see where nodes stop between any two acts: one machine explains it, over any disk that keeps states at
//! each moment. It knows nothing of slots and bytes.
#![tactic(auto)]

mod laws;

pub use laws::{acts_are_linearizable, fewer_outputs_are_a_view};
