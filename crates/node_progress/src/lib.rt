//! How a node goes from turn to turn, and where it halts, over what its device tells: its acts are a record, its areas hold what it keeps,
//! and at each moment a crash leaves what it may. It knows nothing of the code of a node: a loop of turns calls these laws once at its
//! start, once a turn, and at each way to end.
#![tactic(auto)]

mod examples;
mod progress;

pub use examples::{worked_halts, worked_turns};
pub use progress::{turns_are_cut_short, turns_follow, turns_go};
