//! The program `vst`: it hands the words, the standard streams and the device of the process to the top call,
//! and ends with its status.
#![tactic(auto)]

use os_edge::{ReaderSource, RealDevice, WriterSink};
use outside::{WriteFault, write_all};
use std::env;
use std::io::{self, ErrorKind};
use std::process::ExitCode;
use std::rt::Env;
use top_call::run;

// The words that the program was called with, its name first.
fn words(rt: &(impl Env + AllocGlobal)) -> io::Result<Vec<String>> {
    let words = env::args(rt)?.collect(rt.alloc())?;
    Ok(words)
}

fn main(rt: HostRuntime) -> ExitCode {
    let mut err = WriterSink::new(rt.stderr());
    let words = match words(&rt) {
        Ok(words) => words,
        // Words that are no UTF-8 name no command.
        Err(fault) if fault.kind() == ErrorKind::InvalidData => Vec::new(rt.alloc()),
        Err(_) => {
            let status = match write_all(&mut err, b"memory\n") {
                Err(WriteFault::Failed) => 5,
                Ok(()) | Err(WriteFault::Memory) => 8,
            };
            return ExitCode::from(status);
        }
    };
    let mut input = ReaderSource::new(rt.stdin());
    let mut out = WriterSink::new(rt.stdout());
    let mut device = RealDevice::new(&rt);
    let status = run(
        rt.alloc(),
        &words,
        &mut input,
        &mut out,
        &mut err,
        &mut device,
    );
    ExitCode::from(status)
}
