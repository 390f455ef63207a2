//! The program `vst_transcripts`: it reads cases, runs each through the top call over memory, and writes each with what came of it. Its
//! files `stdin` and `stdout` are the tests of the whole program: the gate compares what it writes.
//! How a case is written, and how what came is told, stands at the head of `options.rt`.
#![tactic(auto)]

mod acts;
mod answers;
mod case;
mod inputs;
mod options;
mod page;
mod rows;
mod runs;
mod transcript;

use crate::transcript::transcribe;
use os_edge::{ReaderSource, WriterSink};
use std::process::ExitCode;

fn main(rt: HostRuntime) -> ExitCode {
    let mut input = ReaderSource::new(rt.stdin());
    let mut out = WriterSink::new(rt.stdout());
    ExitCode::from(transcribe(rt.alloc(), &mut input, &mut out))
}
