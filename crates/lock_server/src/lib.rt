//! The lock server as an application: node 0 keeps a queue of the clients that asked, the others ask
//! for the lock and give it back. The handlers know nothing of networks, and trust them to deliver
//! each packet once; on a bag, which does, clients exclude one another (`excludes`).
#![tactic(auto)]

mod examples;
mod laws;
mod queue;
mod rules;
mod server;
mod state;

pub use examples::{worked, worked_exclusion};
pub use laws::excludes;
pub use queue::Queue;
pub use server::LockServer;
pub use state::LockState;
