//! The bytes of a slot: the body that holds a node's state, and the journal after it; and what a slot is for a node
//! that asks. It knows nothing of devices, or of when a state is written.
#![tactic(auto)]

mod bases;
mod body;
mod commands;
mod examples;
mod journal;
mod kept;
mod laws;
mod log;
mod records;
mod slot;
mod version;
mod vote;
mod who;
mod why;

pub use bases::{MAX_BASE_LEN, MAX_RECORD_LEN, make_base, make_base_of, make_record};
pub use body::{Body, put_body, put_state, take_any_body, take_body};
pub use commands::{Commands, MAX_COMMAND};
pub use examples::{
    worked_bodies, worked_fronts, worked_journals, worked_records, worked_refusals, worked_slots,
    worked_stacks,
};
pub use journal::{Journal, MAX_RECORDS, read_journal};
pub use laws::{
    bodies_are_found, bodies_have_one_spelling, found_states_are_own, fronts_decide,
    gates_are_exact, journals_hold_records,
};
pub use records::{Record, put_record, take_record};
pub use slot::{Held, find_in_front, find_slot, read_slot, stack_of_slot};
pub use version::Version;
pub use vote::NO_VOTE;
pub use who::{Owner, Who};
pub use why::Why;
