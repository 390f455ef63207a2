//! Tests of handlers that deal in bytes. They stand apart, as a crate that has tests is proved a second time with them.
#![tactic(auto)]

#[cfg(test)]
mod no_message_tests;
