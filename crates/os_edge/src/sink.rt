ghost use Rattle.std.specs.Prelude.{◌≡◌, ◌≤◌, None};
ghost use Rattle.outside.specs.Streams.{IsWritten, HasCause};
ghost use Rattle.os_edge.specs.Faults.{after_write};
ghost use Rattle.os_edge.specs.Streams.{WritesThrough};

use outside::{Sink, WriteOutcome};
use std::io::{Stderr, Stdout, Write};
use std::marker::Model;

/// Standard output as a sink. It keeps no buffer: what a write took is the system's at once.
pub type StandardOutput = WriterSink<Stdout>;

/// Standard error as a sink. It keeps no buffer.
pub type StandardError = WriterSink<Stderr>;

/// A writer as a sink: each write is one of the writer's, and each of its errors a fault, as is a write
/// that takes nothing of a piece that has bytes. It never wants memory. As a sink it tells no bytes.
#[derive(Drop)]
pub struct WriterSink<W> {
    writer: W,
    faults: u64,
}

impl<W> Model for WriterSink<W> {
    ghost use Rattle.os_edge.specs.Streams.{Adapted};

    ghost Value = { Adapted W };

    ghost view = { λ sink. record { stream = sink.writer; faults = sink.faults } };
}

impl<W> WriterSink<W> {
    /// A sink without faults.
    pub fn new(writer: W) -> Self
        ensures stream { result.stream ≡ writer }
        ensures faults { result.faults ≡ 0 }
    {
        WriterSink { writer, faults: 0 }
    }

    /// How often a write has failed. It stops at the greatest `u64`.
    pub fn faults(&self) -> u64
        ensures { result ≡ self.now.faults }
    {
        self.faults
    }
}

impl<W: Write> Sink for WriterSink<W> {
    ghost written = { λ _. None };

    ghost faults = { λ sink. sink.faults };

    ghost wants = { λ _. 0 };

    fn write(&mut self, piece: &[u8]) -> WriteOutcome
        ensures written { IsWritten None None piece.now result }
        ensures causes { HasCause self.old.faults self.new.faults 0 0 result }
        ensures counts { self.old.faults ≤ self.new.faults }
        ensures faults { self.new.faults ≡ after_write self.old.faults result }
        ensures bytes { WritesThrough (W.contents self.old.stream) (W.contents self.new.stream)
            piece.now result }
    {
        match self.writer.write(piece) {
            Ok(count) if count > 0 || piece.is_empty() => WriteOutcome::Took(count),
            _ => {
                self.faults = self.faults.saturating_add(1);
                WriteOutcome::Failed
            }
        }
    }
}
