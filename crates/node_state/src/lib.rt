//! The state of a Raft node on its device: opening it, and saving what an event changed, as a record of a journal or as a whole slot.
//! What a crash leaves at any moment of these is the state from before the call or the one after it.
#![tactic(auto)]

mod change;
mod common;
mod examples;
mod faults;
mod finding;
mod opening;
mod reading;
mod reopening;
mod saving;
mod store;
mod writing;

pub use change::{SavePlan, StoreChange};
pub use examples::{
    worked_answers, worked_changes, worked_counts, worked_crashes, worked_ends, worked_first_save,
    worked_openings,
};
pub use faults::StateFault;
pub use finding::find_in_area;
pub use opening::{OpenFault, Opened, Refusal, open};
pub use reading::{PIECE, read_front, read_on};
pub use reopening::{open_empty, reopen};
pub use saving::{advance, save, save_acts, save_change};
pub use store::Store;
pub use writing::{make_acts, sync_all};
