ghost use Rattle.std.specs.Prelude.{◌≡◌, IfOk};

use os_edge::{ReaderSource, StandardError, StandardInput, StandardOutput, WriterSink};
use outside::{ReadOutcome, Sink, Source, WriteOutcome};
use std::io::{self, ErrorKind, Read, Write};

// A stream that does nothing but fail, or take nothing.
#[derive(Drop)]
struct Broken {
    fails: bool,
}

impl Read for Broken {
    fn read(&mut self, _buf: &mut [u8]) -> io::Result<usize> {
        self.outcome()
    }
}

impl Write for Broken {
    fn write(&mut self, _buf: &[u8]) -> io::Result<usize> {
        self.outcome()
    }

    fn flush(&mut self) -> io::Result<()> {
        Ok(())
    }
}

impl Broken {
    fn outcome(&self) -> io::Result<usize>
        ensures { IfOk result (λ n. n ≡ 0) }
    {
        if self.fails {
            return Err(ErrorKind::ConnectionReset.into());
        }
        Ok(0)
    }
}

fn read_once<S: Source>(source: &mut S) -> ReadOutcome {
    let mut buf = [0; 4];
    source.read(&mut buf)
}

fn write_once<S: Sink>(sink: &mut S, piece: &[u8]) -> WriteOutcome {
    sink.write(piece)
}

#[test]
fn each_error_is_a_fault(rt: HostRuntime) {
    let mut source = ReaderSource::new(Broken { fails: true });
    assert!(rt; read_once(&mut source) == ReadOutcome::Failed);
    assert!(rt; read_once(&mut source) == ReadOutcome::Failed);
    assert!(rt; source.faults() == 2);
    let mut sink = WriterSink::new(Broken { fails: true });
    assert!(rt; write_once(&mut sink, b"a") == WriteOutcome::Failed);
    assert!(rt; sink.faults() == 1);
}

#[test]
fn a_write_that_takes_nothing_of_a_piece_is_a_fault(rt: HostRuntime) {
    let mut sink = WriterSink::new(Broken { fails: false });
    assert!(rt; write_once(&mut sink, b"") == WriteOutcome::Took(0));
    assert!(rt; write_once(&mut sink, b"a") == WriteOutcome::Failed);
    assert!(rt; sink.faults() == 1);
    let mut source = ReaderSource::new(Broken { fails: false });
    assert!(rt; read_once(&mut source) == ReadOutcome::Got(0));
}

#[test]
fn the_standard_streams_are_a_source_and_sinks(rt: HostRuntime) {
    let mut out: StandardOutput = WriterSink::new(rt.stdout());
    let mut err: StandardError = WriterSink::new(rt.stderr());
    assert!(rt; write_once(&mut out, b"") == WriteOutcome::Took(0));
    assert!(rt; write_once(&mut err, b"") == WriteOutcome::Took(0));
    let mut input: StandardInput = ReaderSource::new(rt.stdin());
    assert!(rt; input.read(&mut []) == ReadOutcome::Got(0));
}
