//! What observers of runs have in common: packets in lists by a number, and what a schedule that a network allows says of its steps
//! before the last one and of that. It knows nothing of what the lists stand for, or of any image.
#![tactic(auto)]

mod examples;
mod packet_lists;

pub use examples::worked;
pub use packet_lists::PacketLists;
