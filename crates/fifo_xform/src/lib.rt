//! FIFO channels: handlers for a network that keeps the order of packets from one node to another are carried, unchanged, to one that
//! may copy and reorder them. A sender numbers its packets by destination, and a receiver gives each sender's in the order of their
//! numbers; one that comes early waits in the hold-back queue of its sender. It knows nothing of what the handlers within do.
#![tactic(auto)]

mod examples;
mod fifo;
mod hand_on;
mod laws;
mod peer;
mod peers;
mod state;

pub use examples::{worked_held, worked_numbers, worked_packets, worked_runs};
pub use fifo::Fifo;
pub use laws::order_is_kept;
pub use peer::Peer;
pub use peers::Peers;
pub use state::FifoState;
