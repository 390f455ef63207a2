//! Words and laws of lists that the crates above share: a prefix, a fact of each element, an element at a place. It has no code but its
//! examples, and knows nothing of the project.
#![tactic(auto)]

mod examples;

pub use examples::worked;
