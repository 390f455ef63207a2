//! The disks of a cluster's nodes in memory, act by act: what a network of single acts asks of a disk, by the acts by which real nodes save
//! their states and open their areas, and with what a word says that a stop leaves. The last act of a save brings what the node then knows,
//! so that a saved state is not looked at again.
#![tactic(auto)]

mod examples;
mod laws;

pub use examples::{worked_acts, worked_names, worked_words};
pub use laws::{old_slots_have_bytes, words_leave_images};
