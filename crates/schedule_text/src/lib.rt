//! The text of schedules, traces and images: lines, their refusals, and how steps and items are spelled.
//! It knows nothing of worlds: whether a step is allowed is not its matter.
#![tactic(auto)]

mod ahead;
mod examples;
mod header;
mod headers;
mod laws;
mod line;
mod line_word;
mod numbers;
mod printing;
mod reading;
mod reading_examples;
mod said;
mod saying;
mod sinks;
mod skips;
mod streams;
mod text_faults;
mod words;

pub use ahead::is_line_ahead;
pub use examples::{worked_headers, worked_limits, worked_printing, worked_steps, worked_words};
pub use header::Header;
pub use headers::header_of;
pub use laws::{
    headers_follow_the_rows, headers_read_back, numbers_have_one_spelling, steps_read_back,
};
pub use line::Line;
pub use line_reader::{MAX_LINE, NEWLINE, ReadFault, Reader, Why, WriteFault, next_line};
pub use printing::{Printed, push_refusal};
pub use reading::{MAX_LINES, line_says};
pub use reading_examples::{worked_nearness, worked_nexts, worked_openings};
pub use sinks::{print_lines, print_step, print_text, print_trace};
pub use skips::is_skipped;
pub use streams::{read_header, read_step};
pub use text_faults::{TextFault, text_fault};
pub use words::{MAX_NUMBER, SPACE, number_of, number_up_to, word_of};
