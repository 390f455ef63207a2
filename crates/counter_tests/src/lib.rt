//! A test of the counter on a cluster. It stands apart, as a crate that has tests is proved a second time with them.
#![tactic(auto)]

#[cfg(test)]
mod cluster_tests;
