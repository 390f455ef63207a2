//! The key-value store as a state machine: what each command does with the value of its key, and what
//! it answers. It knows nothing of texts, nodes or networks.
#![tactic(auto)]

mod changes;
mod cmd;
mod examples;
mod machine;
mod out;
mod state;

pub use cmd::KvCmd;
pub use examples::worked;
pub use machine::KvMachine;
pub use out::KvOut;
pub use state::KvState;
