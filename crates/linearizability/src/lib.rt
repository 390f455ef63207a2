//! When what clients see is explained by one machine (linearizability, Herlihy and Wing 1990). It is said of an order of requests
//! and of what clients saw, and knows nothing of how either came about.
#![tactic(auto)]

mod examples;

pub use examples::{worked_orders, worked_parts};
