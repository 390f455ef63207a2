//! A node's device over memory, for tests and theorems: it tells its acts and its disk, and follows scripts of failing calls, of
//! datagrams that arrive and of clock values; a steady form of it never fails. Of each moment it gives images that a crash may leave.
#![tactic(auto)]

mod area;
mod examples;
mod history;
mod laws;
mod memory;
mod memory_disk;
mod past;
mod record_examples;
mod script;
mod steady;
mod trail;

pub use examples::{worked_clocks, worked_dues, worked_failures, worked_receives};
pub use laws::areas_follow_the_acts;
pub use memory::{Counts, MemoryDevice};
pub use memory_disk::{Areas, MemoryDisk};
pub use past::{Past, PastAct};
pub use record_examples::{
    worked_acts, worked_devices, worked_notes, worked_records, worked_scripts, worked_stays,
};
pub use steady::{Arrival, SteadyDevice};
