//! Replay of a schedule's text: from its bytes to the trace and the image below it. It knows nothing of
//! command lines.
#![tactic(auto)]

mod done;
mod examples;
mod fault;
mod faults;
mod finish;
mod halt;
mod laws;
mod outcome_examples;
mod play;
mod read_examples;
mod rest;
mod stream;
mod taking;
mod tally;
mod tallying;
mod writing;

pub use done::Done;
pub use examples::{worked, worked_playing, worked_replays};
pub use fault::ReplayFault;
pub use laws::replays_are_explained;
pub use outcome_examples::{worked_causes, worked_keeping, worked_outcomes};
pub use read_examples::worked_reads;
pub use stream::replay;
