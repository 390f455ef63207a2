//! Retransmission: handlers for a network that loses nothing are carried, unchanged, to one that loses, copies and reorders
//! packets. Each node keeps what it sends until the destination acknowledges it, and sends it again at its ticks. It knows nothing
//! of what the handlers within do.
#![tactic(auto)]

mod examples;
mod explained;
mod hand_on;
mod kept;
mod resend;
mod retry;
mod state;

pub use examples::worked;
pub use explained::retries_lose_nothing;
pub use kept::KeptPackets;
pub use retry::Retry;
pub use state::RetryState;
