//! How a run is mapped, a step at a time, to a run of a simpler system that explains it: its image. It is made of the steps and
//! of what clients saw of them alone. The simplest such system stands here too: a machine as handlers at one node, which takes each
//! command that a client gives it and answers at once. It knows nothing of what handlers or machines do, nor of texts.
#![tactic(auto)]

mod copy;
mod examples;
mod image;
mod itself;
mod laws;
mod repeats;
mod replied_to;
mod schedule;
mod single_node;
mod trace_map;

pub use examples::worked;
pub use image::Image;
pub use itself::Itself;
pub use laws::is_the_machine;
pub use repeats::WithoutRepeats;
pub use replied_to::RepliedTo;
pub use schedule::{below_primary_backup, once};
pub use single_node::SingleNode;
pub use trace_map::TraceMap;
