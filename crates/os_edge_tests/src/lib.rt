//! Tests of a node's device over the system: what its socket, files and clock do in truth, which no clause says. They stand apart, as a
//! crate that has tests is proved a second time with them. Each takes free ports, and folders of its process alone.
#![tactic(auto)]

#[cfg(test)]
mod directory_tests;
#[cfg(test)]
mod places;
#[cfg(test)]
mod real_device_tests;
