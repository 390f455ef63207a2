//! What a node runs on, as a trait: a socket, a directory of three areas and a clock. A device counts its faults by kind and its wants of memory, and may tell
//! the record of its acts and its disk; a real one tells neither. It knows nothing of what the areas hold.
#![tactic(auto)]

mod device;
mod examples;
mod limits;

pub use device::{AreaRead, Device, Received, Shipped, Stored};
pub use examples::{
    worked_counts, worked_counts_of_wants, worked_messages, worked_reads, worked_stops,
    worked_stores, worked_telling, worked_wants,
};
pub use limits::RECEIVE_BUFFER;
