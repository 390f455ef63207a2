//! Tests of handlers, worlds and stacks, over what these crates make public. They stand apart, as a crate that has tests is proved a
//! second time with them.
#![tactic(auto)]

#[cfg(test)]
mod counts;
#[cfg(test)]
mod handler_trait_tests;
#[cfg(test)]
mod net_semantics_fail_tests;
#[cfg(test)]
mod net_semantics_tests;
#[cfg(test)]
mod seqnum_xform_tests;
#[cfg(test)]
mod trace_maps_tests;
#[cfg(test)]
mod transformer_tests;
#[cfg(test)]
mod xform_stack_tests;
