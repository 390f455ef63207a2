//! Stacks of handlers run over whole schedules: the trace, and the image, a run of the simpler system that
//! explains it. It knows nothing of texts.
#![tactic(auto)]

mod alone;
mod backed;
mod cluster_order;
mod examples;
mod fail_network;
mod failing;
mod laws;
mod mapped;
mod network;
mod observer;
mod ran;
mod refusing;
mod run;
mod running;
mod runs;
mod steady_world;
mod whole;

pub use alone::run_one;
pub use backed::{run_backed, run_backed_dup};
pub use examples::worked_faults;
pub use failing::run_fail;
pub use laws::numbered_lock_excludes;
pub use mapped::Mapped;
pub use network::Network;
pub use observer::Observer;
pub use ran::{Ran, RunFault};
pub use refusing::fault_at;
pub use run::{run_bag, run_dup, run_mapped};
pub use running::Running;
pub use runs::Runs;
pub use seqnum_xform::SeqNum;
pub use steady_world::SteadyWorld;
pub use trace_maps::{Image, Itself, RepliedTo, TraceMap, WithoutRepeats};
pub use whole::run_on;
