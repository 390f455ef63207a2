//! The mirror as an application: what is put at a node, node 0 outputs with the node's number. The handlers know nothing of networks,
//! and trust them to deliver each packet once and in order; on a network of FIFO channels, what node 0 outputs of a node is a prefix of
//! what was put there.
#![tactic(auto)]

mod examples;
mod laws;
mod server;

pub use examples::{worked, worked_traces};
pub use laws::said_is_a_prefix;
pub use server::Mirror;
