//! The bytes of the messages of all stacks, of commands and outputs, and of the entries of logs: each message has
//! one spelling. It knows nothing of datagrams, or of what the messages mean.
#![tactic(auto)]

mod append;
mod asked;
mod backup;
mod client;
mod entries;
mod entry;
mod examples;
mod front;
mod kv;
mod lock;
mod mirror_message;
mod numbered;
mod parts;
mod raft;
mod read;
mod retried;
mod table;
mod tokens;
mod votes;
mod whole;
mod wire;

pub use client::{Answer, ClientReply, ClientRequest};
pub use entries::{put_each, take_list};
pub use entry::take_old_entry;
pub use examples::{worked_entries, worked_items, worked_lists, worked_retries, worked_rounds};
pub use whole::{from_bytes, messages_have_one_spelling, old_entries_have_one_spelling};
pub use wire::Wire;
