//! Datagrams of version 2: a heading, and a message of its stack and kind up to the end. It knows how they stand in
//! bytes, and not what nodes do with them.
#![tactic(auto)]

mod datagram;
mod examples;
mod heading;
mod kind;
mod laws;

pub use datagram::{Datagram, MAX_DATAGRAM, decode, encode_into};
pub use examples::{
    refused_datagrams, worked_answers, worked_cluster_messages, worked_commands, worked_datagrams,
    worked_headings, worked_messages, worked_packets, worked_stacks, worked_table_commands,
};
pub use heading::{Heading, stack_byte};
pub use kind::Kind;
pub use laws::{datagrams_have_one_spelling, fitting_messages_have_datagrams};

#[cfg(test)]
mod tests;
