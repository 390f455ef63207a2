//! The states of machines as bytes, as the snapshots of a cluster have them: finite maps, whose pairs stand in the order of their keys, so
//! that each state has one spelling. It knows nothing of nodes, logs or messages.
#![tactic(auto)]

mod examples;
mod laws;
mod ordered_key;
mod ordered_kv;
mod pairs;
mod snap;
mod store;

pub use examples::worked_stores;
pub use laws::states_have_one_spelling;
pub use ordered_key::OrderedKey;
pub use ordered_kv::OrderedKv;
pub use pairs::{put_pairs, take_pairs};
pub use snap::Snap;
pub use store::Store;
