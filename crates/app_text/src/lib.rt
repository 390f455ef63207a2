//! The texts of an application's inputs and outputs: each value has one text, and no other text is
//! read as it. It knows nothing of the lines that the texts stand in.
#![tactic(auto)]

mod arguments;
mod examples;
mod kv_commands;
mod kv_examples;
mod kv_outputs;
mod kv_text;
mod lock_text;
mod mirror_examples;
mod mirror_text;
mod optional;
mod pb_text;
mod printing;
mod table_commands;
mod table_examples;
mod table_outputs;
mod table_text;
mod text;
mod word;
mod words;

pub use examples::worked;
pub use kv_examples::{worked_commands, worked_outputs};
pub use kv_text::KvText;
pub use lock_text::LockText;
pub use mirror_examples::{worked_mirror_inputs, worked_mirror_outputs};
pub use mirror_text::MirrorText;
pub use pb_text::{MachineText, PbText};
pub use table_examples::{worked_table_commands, worked_table_outputs};
pub use table_text::TableText;
pub use text::{AppText, TextFault};
