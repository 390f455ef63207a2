//! What explains a run of retrying handlers: a schedule of the handlers within, on a network that copies packets and loses none, where
//! each delivery of data is a copy and a delivery of the packet that the data carries. It is found by watching the run, as the steps
//! alone do not tell what a packet carries. It knows nothing of what the handlers within do.
#![tactic(auto)]

mod catching_up;
mod examples;
mod laws;
mod looking;
mod places;
mod resent;

pub use examples::worked;
pub use laws::names_are_in_turn;
pub use places::Places;
pub use resent::Resent;
