//! Tests of Raft's rules, and of Raft as handlers, over what these crates make public. They stand apart, as a crate that has tests is proved a
//! second time with them.
#![tactic(auto)]

#[cfg(test)]
mod raft_clients_tests;
#[cfg(test)]
mod raft_commit_tests;
#[cfg(test)]
mod raft_election_tests;
#[cfg(test)]
mod raft_log_tests;
#[cfg(test)]
mod raft_xform_tests;
#[cfg(test)]
mod requests;
