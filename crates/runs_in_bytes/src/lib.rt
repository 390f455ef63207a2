//! Networks that carry bytes: each packet is spelled when it is sent and read when it comes (`InBytes`), and what a node of a cluster
//! keeps while it is stopped is bytes alone (`OnBytes`). What clients see and what is refused are those of the handlers within, and so
//! are the worlds that their bytes stand for. They know nothing of images and of texts.
#![tactic(auto)]

mod alone;
mod carries_bytes;
mod cluster;
mod examples;
mod in_bytes;
mod name;
mod on_bytes;

pub use alone::OnBytesAlone;
pub use carries_bytes::{CarriesBytes, KeepsBytes};
pub use cluster::ClusterInBytes;
pub use examples::{
    worked_clusters, worked_network, worked_packets, worked_readers, worked_worlds,
};
pub use in_bytes::InBytes;
pub use on_bytes::OnBytes;
