//! Schedules that are drawn: a text is replayed, and where no line of it is refused, its picture is written. What is refused, and how it
//! is said, is what a replay says. The picture is of a run of its own, of handlers that tell of each event what it sends, in words. It
//! does not know how a picture looks.
#![tactic(auto)]

mod columns;
mod drawing_run;
mod drawn;
mod examples;
mod flights;
mod gathered;
mod hand_on;
mod leads;
mod lives;
mod messages;
mod pictures;
mod reading;
mod says;
mod stack_runs;
mod stepping;
mod steps;
mod telling;
mod telling_examples;
mod told;
mod words;

pub use drawing_run::run_draw;
pub use drawn::draw;
pub use examples::{worked_drawing, worked_endings, worked_writes};
pub use leads::Leads;
pub use pictures::{MAX_ROWS, picture_of};
pub use says::Says;
pub use telling::Telling;
pub use telling_examples::{worked_runs, worked_telling};
pub use told::{Sent, Told};
