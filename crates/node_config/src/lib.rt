//! The configuration of a node, as it reads it from a text in TOML: its stack, the addresses of its cluster and of its
//! clients, its periods and its cluster's name. It knows nothing of what a node does with it.
#![tactic(auto)]

mod address;
mod addresses;
mod config;
mod entries;
mod examples;
mod fault;
mod filling;
mod key;
mod laws;
mod limits;
mod name;
mod reading;
mod table;

pub use address::address_of;
pub use addresses::{Addresses, are_distinct};
pub use config::Config;
pub use examples::{worked_addresses, worked_names, worked_tables, worked_texts};
pub use fault::ConfigFault;
pub use key::ConfigKey;
pub use laws::{addresses_have_one_text, configurations_fit};
pub use limits::{MAX_CLIENTS, MAX_CONFIG, MAX_PERIOD};
pub use name::name_of;
pub use reading::read_config;
