//! The table of named locks as a state machine: what each command does with the holder of its name, and
//! what it answers. It knows nothing of texts, nodes or networks.
#![tactic(auto)]

mod cmd;
mod examples;
mod laws;
mod machine;
mod out;
mod rules;
mod state;

pub use cmd::TableCmd;
pub use examples::worked;
pub use laws::names_stay_with_their_owners;
pub use machine::TableMachine;
pub use out::TableOut;
pub use state::TableState;
