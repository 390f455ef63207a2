//! The lives of a node: one process after the other over the same areas, each killed at any moment; what they are as deeds of a node
//! that stores what it decides before anything of it goes out. It has no code: it carries what is said of one process's record over to
//! histories of nodes.
#![tactic(auto)]

mod examples;
mod laws;

pub use examples::{worked_datagrams, worked_deeds, worked_lives};
pub use laws::lives_store_first;
