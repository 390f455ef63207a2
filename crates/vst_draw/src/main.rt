//! The program `vst_draw`: it hands the standard streams of the process to the drawing of a schedule, and ends with its status.
#![tactic(auto)]

use drawn_schedules::run_draw;
use os_edge::{ReaderSource, WriterSink};
use std::process::ExitCode;

fn main(rt: HostRuntime) -> ExitCode {
    let mut input = ReaderSource::new(rt.stdin());
    let mut out = WriterSink::new(rt.stdout());
    let mut err = WriterSink::new(rt.stderr());
    let status = run_draw(rt.alloc(), &mut input, &mut out, &mut err);
    ExitCode::from(status)
}
