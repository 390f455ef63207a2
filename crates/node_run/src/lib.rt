//! What a node of a Raft cluster does, read off what its device tells: which datagrams are events, when its timer fires, and for each
//! event what the node keeps after it and which datagrams it sends, which are in the grammar and are heard. It has no code but the types
//! of events and of waits: the calls of a node are to do just this.
#![tactic(auto)]

mod due;
mod event;
mod examples;
mod laws;
mod saying_examples;

pub use due::Due;
pub use event::Event;
pub use examples::{worked_hearing, worked_runs, worked_turns, worked_waits};
pub use laws::what_is_said_is_heard;
pub use saying_examples::{worked_grammar, worked_leading, worked_sayings};
