//! Which packets are in flight, by rank: the i-th of them in ascending order, the i-th of those that go to a node that is up, and
//! the i-th of those that are the first of their source and destination, found without looking at every packet. It knows nothing
//! of what packets hold, or of how often each is copied.
#![tactic(auto)]

mod examples;
mod index;
mod queues;
mod tree;
mod turns;

pub use examples::{worked, worked_turns};
pub use index::FlightIndex;
pub use turns::TurnIndex;
