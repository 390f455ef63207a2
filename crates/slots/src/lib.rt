//! A state in two slots and a selector: what three areas open as, the acts that open, save and patch them, and what a crash leaves at
//! each moment of these. What a slot's bytes are found to be is a parameter; it knows nothing of devices.
#![tactic(auto)]

mod examples;
mod keeping;
mod patch;
mod saving;

pub use examples::{
    worked_acts, worked_between, worked_datagrams, worked_journals, worked_openings, worked_saves,
    worked_starts, worked_ways, worked_wrong_orders,
};
pub use keeping::{ways_to_keep, ways_to_keep_between};
pub use patch::{patches, patches_between};
pub use saving::{laws, laws_between};
