//! Packets by lane, the way from one node to another, in the order of sending: for each packet the one that was sent before it on
//! its lane. It knows nothing of what packets hold, or of which of them are in flight.
#![tactic(auto)]

mod examples;
mod lanes;

pub use examples::worked;
pub use lanes::Lanes;
