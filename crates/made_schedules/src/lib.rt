//! Schedules that are made from a number, as text: each step is written as it is made, and a replay of the text takes them all. Each
//! step has a line: events send few packets, so packets have small numbers, and inputs that are made have short texts.
#![tactic(auto)]

mod each_stack;
mod examples;
mod fault;
mod few;
mod laws;
mod line_examples;
mod lines;
mod making;
mod writing;
mod writing_examples;

pub use each_stack::each_stack_has_lines;
pub use examples::worked;
pub use fault::MakeFault;
pub use few::{events_send_few, packets_are_few};
pub use laws::{made_schedules_are_allowed, made_schedules_are_replayed};
pub use line_examples::{worked_sends, worked_texts};
pub use lines::{made_inputs_have_texts, made_steps_have_lines};
pub use making::{make, summary};
pub use writing_examples::worked_writings;
