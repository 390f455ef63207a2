//! Networks as worlds: nodes with their states, and packets with their copies in flight. A world takes
//! one step of a schedule at a time, or says why it does not. It knows nothing of applications,
//! transformers or texts.
#![tactic(auto)]

mod events;
mod fail_world;
mod fault;
mod packets;
mod pins;
mod refusals;
mod stopped;
mod trace;
mod world;

pub use fail_world::FailWorld;
pub use fault::StepFault;
pub use pins::{
    contents_apart, kept_by_place, order_and_loss, refusals_in_order, repeats_left_out,
    runs_and_traces, steps_of_a_world,
};
pub use trace::Trace;
pub use vst_base::{Item, MAX_STEPS, Net, Node, Step, StepKind, StepRefusal};
pub use world::World;
