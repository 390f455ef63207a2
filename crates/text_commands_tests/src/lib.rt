//! Tests of the commands over texts, and of printed steps, over the forms of the edge that never fail. They stand apart, as a crate that has
//! tests is proved a second time with them. What goes through the whole program stands in the cases of `vst_transcripts`.
#![tactic(auto)]

#[cfg(test)]
mod steady_tests;
