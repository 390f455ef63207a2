//! A Raft node over its device: it opens its areas, and then takes turn after turn. What it may assume of the device is the device's
//! contract alone, and what comes is any bytes from any address at any time.
#![tactic(auto)]

mod examples;
mod fault;
mod listening;
mod opening_examples;
mod room;
mod serving;
mod serving_examples;
mod table_examples;
mod turning;

pub use examples::{worked_causes, worked_listening, worked_starts};
pub use fault::NodeFault;
pub use opening_examples::{worked_openings, worked_stops};
pub use serving::{MAX_TURNS, serve};
pub use serving_examples::{worked_areas, worked_faults, worked_serving};
pub use table_examples::{worked_table_areas, worked_tables};
