//! A finite set of numbers with a quick look-up, kept as the least number that is not in it and the numbers above that one. It knows
//! nothing of what the numbers count.
#![tactic(auto)]

mod examples;
mod laws;
mod set;
mod strip;

pub use examples::worked;
pub use laws::gaps_are_one;
pub use set::NumberSet;
