//! The rules of elections in Raft: terms, the vote of a node in its term, and the votes that a candidate
//! counts. It knows nothing of logs but whether a candidate's is up to date, and nothing of roles or
//! messages.
#![tactic(auto)]

mod ballot;
mod examples;
mod votes;

pub use ballot::Ballot;
pub use examples::{one_vote_a_term, votes_are_sets, worked};
pub use votes::is_majority;
