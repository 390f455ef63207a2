//! Tests of a node's whole run through the top call over memory that can't be cases of `vst_transcripts`: what the images open as that a crash
//! may leave after each act, and random datagrams. They stand apart, as a crate that has tests is proved a second time with them.
#![tactic(auto)]

#[cfg(test)]
mod bytes;
#[cfg(test)]
mod noise;
#[cfg(test)]
mod run;
#[cfg(test)]
mod stops;
