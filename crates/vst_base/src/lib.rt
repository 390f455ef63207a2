//! What every other crate speaks of: nodes, networks, stacks, the steps of a schedule, the items of a
//! trace, the values of the applications, the tokens that they hold, the messages of transformers, state
//! machines, the entries of logs, and what decides votes and commits. It knows nothing of handlers,
//! packets in flight or the texts of commands.
#![tactic(auto)]

mod client;
mod counter;
mod entry;
mod examples;
mod lock;
mod machine;
mod mirror;
mod net;
mod node;
mod pb_msg;
mod pb_out;
mod queries;
mod raft_examples;
mod request;
mod retry;
mod sender;
mod seq;
mod stack;
mod stack_laws;
mod step;
mod token;
mod what;

pub use client::ClientId;
pub use counter::Counter;
pub use entry::{Entry, MAX_TERM};
pub use examples::{worked, worked_stacks, worked_tokens};
pub use lock::{LockInput, LockMsg, LockOutput};
pub use machine::Machine;
pub use mirror::{MirrorInput, MirrorMsg, MirrorOutput};
pub use net::Net;
pub use node::{MAX_NODES, Node};
pub use pb_msg::PbMsg;
pub use pb_out::PbOut;
pub use queries::Queries;
pub use raft_examples::{
    majorities_meet, worked_commits, worked_elections, worked_entries, worked_logs,
};
pub use request::ReqId;
pub use retry::RetryMsg;
pub use sender::Sender;
pub use seq::SeqMsg;
pub use stack::{StackId, StackRow};
pub use stack_laws::stacks_have_one_word;
pub use step::{Item, MAX_STEPS, Step, StepKind, StepRefusal};
pub use token::{Key, MAX_KEY, MAX_VALUE, SHORT_TOKEN, Token, Value};
pub use what::What;
