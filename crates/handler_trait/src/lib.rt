//! What an application is: handlers, which make of each event at a node its new state, outputs for
//! clients and packets to send, all at once (Verdi, PLDI 2015). It knows nothing of networks.
#![tactic(auto)]

mod echo;
mod effects;
mod examples;
mod handlers;
mod rebootable;
mod room;

pub use echo::Echo;
pub use effects::Effects;
pub use examples::worked;
pub use handlers::{Handlers, MAX_OUTPUTS, MAX_SENDS, SPENT_MAX, STEP_COST};
pub use rebootable::Rebootable;
pub use room::LeavesRoom;
