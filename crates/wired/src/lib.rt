//! Handlers that deal in bytes: what a node sends is the datagram of its message, and what it is given is read as one (`Wired`); what a
//! node that stops keeps is the body of a slot, and what it starts from is read as one (`Saved`). Neither knows what the handlers within
//! do. On every network clients can't tell them from these, wherever what is sent and kept has bytes; and of each stack it has.
#![tactic(auto)]

mod always_fits;
mod body_bytes;
mod cluster;
mod examples;
mod hand_on;
mod hearing;
mod laws;
mod on_disk;
mod on_wire;
mod packet;
mod raft;
mod read_examples;
mod saved;
mod saved_bytes;
mod saves;
mod seat_state;
mod stack_examples;
mod stacks;
mod wired;

pub use always_fits::AlwaysFits;
pub use cluster::Cluster;
pub use examples::{worked_packets, worked_runs, worked_states, worked_stops};
pub use hearing::hear;
pub use laws::{
    bytes_run_the_same, fitting_messages_have_bytes, saved_runs_are_the_same,
    wired_runs_are_the_same,
};
pub use on_disk::OnDisk;
pub use on_wire::OnWire;
pub use packet::Packet;
pub use read_examples::{worked_readers, worked_rounds};
pub use saved::Saved;
pub use saved_bytes::SavedBytes;
pub use saves::Saves;
pub use seat_state::SeatState;
pub use stack_examples::{worked_cluster_stacks, worked_stacks};
pub use stacks::{clusters_run_the_same_on_bytes_alone, runs_as_bytes};
pub use wired::Wired;
