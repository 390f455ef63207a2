//! The disk under a node: the acts on its three areas, what a crash may leave of them, and what holds of every disk. It knows
//! nothing of what the areas hold, nor of devices.
#![tactic(auto)]

mod every_disk;
mod examples;

pub use every_disk::{laws, laws_between, worded_images};
pub use examples::{
    worked_areas, worked_between, worked_cuts, worked_faults, worked_gaps, worked_images,
    worked_pending, worked_short_acts, worked_short_failures, worked_syncs, worked_writes,
};
