//! What a node of a Raft cluster makes of the datagrams that it receives, and the datagrams that it makes of packets and outputs. It knows
//! the node's configuration, and neither its state nor when it is to act.
#![tactic(auto)]

mod addresses;
mod examples;
mod hearing;
mod saying;
mod shipping;

pub use addresses::{address_of_client, address_of_node};
pub use examples::{worked_bytes, worked_events, worked_sayings, worked_settings};
pub use hearing::hear;
pub use saying::{put_packet, put_reply};
pub use shipping::ship;
