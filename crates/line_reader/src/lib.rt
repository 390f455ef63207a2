//! The lines of a text that a source gives: how they are cut, numbered and limited. It knows nothing of what the
//! lines say, but has the names of all refusals.
#![tactic(auto)]

mod ahead;
mod cuts;
mod examples;
mod next;
mod piece;
mod read_fault;
mod reader;
mod reading_examples;
mod why;
mod why_words;
mod write_fault;

pub use cuts::{NEWLINE, cut_at};
pub use examples::{worked, worked_ends};
pub use next::next_line;
pub use read_fault::ReadFault;
pub use reader::{MAX_LINE, Reader};
pub use reading_examples::{worked_nearness, worked_reading, worked_stopping};
pub use why::Why;
pub use write_fault::WriteFault;
