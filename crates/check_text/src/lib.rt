//! The text of a claim: a trace, the line `below`, and an image that is to explain the trace. It knows which lines there are
//! and why one is refused, and nothing of what an image explains.
#![tactic(auto)]

mod claim;
mod draft;
mod examples;
mod image_line;
mod image_lines;
mod image_text;
mod item_parts;
mod reading;
mod reading_examples;
mod stage;
mod taking;
mod trace_line;
mod trace_lines;

pub use claim::Claim;
pub use examples::{worked_ends, worked_image_lines, worked_reads, worked_trace_lines};
pub use image_line::ImageLine;
pub use image_lines::{Orders, Steps};
pub use image_text::ImageText;
pub use reading::{MAX_LINES, read_claim};
pub use reading_examples::worked_readings;
