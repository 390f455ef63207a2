//! Tests of a node's device over memory, of the bytes of its slots, of its configuration, and of its state on that device. They stand
//! apart, as a crate that has tests is proved a second time with them.
#![tactic(auto)]

#[cfg(test)]
mod devices;
#[cfg(test)]
mod node_body_tests;
#[cfg(test)]
mod node_config_tests;
#[cfg(test)]
mod node_device_mem_tests;
#[cfg(test)]
mod node_state_tests;
#[cfg(test)]
mod silent;
#[cfg(test)]
mod slot_bytes;
