//! What the whole record of a node's device is, turn after turn, and what a crash leaves at any moment of it, also where a fault cuts a
//! turn short. It knows nothing of the code of a node: a loop of turns calls these laws, once a turn.
#![tactic(auto)]

mod examples;
mod moments;
mod records;

pub use examples::{worked_folds, worked_moments, worked_records, worked_stops};
pub use moments::{
    event_turns_leave, moments_grow, quiet_turns_leave, saved_events_count, saves_open_as_either,
    waiting_turns_leave,
};
pub use records::{fault_turns_are_orderly, records_grow, turn_is_record, turns_hear};
