//! The world of a network in which each act of a node's device is a step, in code: over any handlers with recovery, and any way to save
//! their states. `ActWorld::step` takes every kind of step, or says why not: the first refusal that applies. `step_by_word` does, where
//! a word says what a stop leaves. What a step makes of the world is what the definitions of such a network say, and it writes down the
//! run of whole events that the steps come to and what clients saw of the turns that count. A disk is what `SavesByActs` says of it. The
//! crate knows nothing of slots and bytes, and no rule of an application.
#![tactic(auto)]

mod act_node;
mod by_word;
mod event_input;
mod examples;
mod flight;
mod node_list;
mod notes;
mod refusals;
mod saves_by_acts;
mod turn;
mod world;

pub use examples::{worked_stops, worked_traces, worked_turns, worked_words};
pub use notes::ListedTurn;
pub use saves_by_acts::{LeavesByActs, SavesByActs};
pub use world::ActWorld;
