//! What explains a run over FIFO channels: a schedule of the handlers within, on a network that keeps the order of packets, where each
//! content is delivered at the step that gave it to them. It is found by watching the run, as the steps alone do not tell which packet
//! a tick gives. It knows nothing of what the handlers within do.
#![tactic(auto)]

mod catching_up;
mod channels;
mod examples;
mod given;
mod in_order;
mod laws;

pub use channels::Channels;
pub use examples::worked;
pub use in_order::InOrder;
pub use laws::numbers_are_places;
