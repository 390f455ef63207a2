//! A network in which each act of a node is a step: those on its areas one by one, its sends and its outputs. A node may stop between any
//! two of them. The turns that count, listed in the order in which they count, are a run of the network that loses and copies packets and
//! stops and starts nodes, with just the outputs left out that were not sent, whatever the handlers and whatever the disk, where the disk
//! keeps states at each moment. It knows nothing of slots and bytes, and no rule of Raft.
#![tactic(auto)]

mod examples;
mod laws;
mod leaves_by_word;
mod saves_states;
mod step;

pub use examples::{
    cells_keep_numbers, worked_listings, worked_moments, worked_premises, worked_refusals,
    worked_runs, worked_starts,
};
pub use laws::{
    acts_are_events, down_nodes_open, image_is_short, schedules_are_events, states_agree,
    stops_count_by_state, words_may_be_left,
};
pub use leaves_by_word::LeavesByWord;
pub use saves_states::SavesStates;
pub use step::ActStep;
