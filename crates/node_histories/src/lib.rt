//! What happens at the nodes of a system is a run of the network that loses, copies and reorders packets and stops
//! nodes, where no message is forged; and the order that explains what was seen explains each view of it, as clients
//! have one of what their nodes saw. It knows handlers as functions, and of clients what they ask and are told. It
//! knows no rule of Raft, and nothing of datagrams, disks and clocks.
#![tactic(auto)]

mod examples;
mod laws;

pub use examples::{
    worked_histories, worked_premises, worked_runs, worked_translations, worked_views,
};
pub use laws::{histories_are_runs, less_is_explained, translations_are_by_node};
