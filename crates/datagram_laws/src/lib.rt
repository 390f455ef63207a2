//! What nodes of a cluster say is heard, and what they hear was said: which packet or output of which node the bytes of a datagram are.
//! It has no code. It knows datagrams and the events that they are, and nothing of devices, disks and clocks.
#![tactic(auto)]

mod examples;
mod laws;

pub use examples::{worked_bytes, worked_hearing, worked_origins, worked_reading};
pub use laws::{
    bytes_are_of_one, datagrams_are_heard, nodes_stay_in_bytes, what_is_heard_was_said,
};
