//! The stacks' table: of each stack its network, its run, its texts, its image, the verdict on a claim and what explains one, as an
//! application and the transformers over it; and the one place that goes from a header to the code of its stack.
#![tactic(auto)]

mod cluster_examples;
mod clustered;
mod code;
mod examples;
mod itself;
mod laws;
mod layered;
mod machine;
mod on_layers;
mod own;
mod read_run;
mod reading;
mod steady;
mod table;

pub use cluster_examples::worked_clusters;
pub use clustered::Clustered;
pub use code::{Judged, OnStack, Plays, StackCode};
pub use examples::worked_layers;
pub use itself::{AsOwn, Named, NamedInNumbers, NumberedBackup, NumberedStack};
pub use laws::{headers_have_stacks, machine_takes_images, stacks_explain, stacks_fit_their_rows};
pub use layered::{Layered, Numbered, OfStack, Ordered, Retried, Stepwise};
pub use machine::{Alone, Application, Backed};
pub use own::{Own, OwnStack};
pub use read_run::ReadRun;
pub use reading::Reading;
pub use steady::Steady;
pub use table::on_stack;
