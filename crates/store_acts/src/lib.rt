//! The acts that make a node's state durable, as values, and areas in memory on which they are done one at a time and in place, with
//! what a crash may leave between any two. It knows nothing of devices.
#![tactic(auto)]

mod act;
mod examples;
mod images;
mod laws;
mod listing;
mod pending_area;
mod pending_areas;

pub use act::{AreaId, StoreAct};
pub use examples::{worked_acts, worked_undos};
pub use images::Image;
pub use laws::stops_leave_images;
pub use listing::{all_synced, record_added, slot_saved, slots_begun};
pub use pending_area::PendingArea;
pub use pending_areas::PendingAreas;
