//! Pictures of runs, in SVG: what stands in one, where each part of it lies on the page, and its text. It knows nothing of schedules,
//! and of what the parts mean no more than how they look.
#![tactic(auto)]

mod escaping;
mod examples;
mod layout;
mod legend;
mod parts;
mod picture;
mod svg;
mod ways;
mod words;

pub use escaping::push_escaped;
pub use examples::worked;
pub use parts::{Arrow, Bar, BarKind, Mark, Picture, Row, Spot, Stub};
pub use picture::{MOST_ROWS, svg_of};
