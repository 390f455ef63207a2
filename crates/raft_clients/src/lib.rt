//! What a Raft node keeps of clients, so that a request that comes again is executed once (the extended Raft
//! paper, section 8): the last request of each client that was executed, with its output; what an entry of
//! the log does with the machine and these; and which requests of a log are executed. It knows nothing of
//! terms, messages or nodes.
#![tactic(auto)]

mod apply;
mod examples;
mod laws;
mod places;
mod session;
mod sessions;

pub use apply::apply_entry;
pub use examples::{worked_answers, worked_executed, worked_logs};
pub use laws::{the_log_decides, the_machine_takes_each_request_once};
pub use places::executed;
pub use session::Session;
pub use sessions::Sessions;
