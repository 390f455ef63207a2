//! One turn of a node of a Raft cluster, by moves: a node that has shipped takes an event, then saves what it keeps, and only then ships
//! its datagrams. So no datagram leaves before the state that it speaks of is durable. It knows one turn, and not which event comes.
#![tactic(auto)]

mod examples;
mod replica;
mod saved;
mod shipped;
mod taken;

pub use examples::{worked_readiness, worked_replicas, worked_taken};
pub use replica::Replica;
pub use saved::Saved;
pub use shipped::Shipped;
pub use taken::Taken;
