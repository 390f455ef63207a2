//! Sequence numbering: handlers for a network that delivers each packet once are carried, unchanged, to one that may copy
//! packets. Each sender numbers its packets, and each receiver lets a number of a sender through once. It knows nothing of
//! what the handlers within do.
#![tactic(auto)]

mod examples;
mod hand_on;
mod repeats;
mod seen;
mod seen_law;
mod seqnum;
mod state;

pub use examples::worked;
pub use repeats::repeats_do_nothing;
pub use seen::SeenNumbers;
pub use seen_law::{seen_is_noted, seen_of_a_sender};
pub use seqnum::SeqNum;
pub use state::SeqState;
