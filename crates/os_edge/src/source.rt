ghost use Rattle.std.specs.Prelude.{◌≡◌, ◌≤◌, None};
ghost use Rattle.outside.specs.Streams.{IsRead};
ghost use Rattle.os_edge.specs.Faults.{after_read};
ghost use Rattle.os_edge.specs.Streams.{ReadsThrough};

use outside::{ReadOutcome, Source};
use std::io::{Read, Stdin};
use std::marker::Model;

/// Standard input as a source.
pub type StandardInput = ReaderSource<Stdin>;

/// A reader as a source: each read is one of the reader's, and each of its errors a fault. No other read counts one. As a
/// source it tells no bytes.
#[derive(Drop)]
pub struct ReaderSource<R> {
    reader: R,
    faults: u64,
}

impl<R> Model for ReaderSource<R> {
    ghost use Rattle.os_edge.specs.Streams.{Adapted};

    ghost Value = { Adapted R };

    ghost view = { λ source. record { stream = source.reader; faults = source.faults } };
}

impl<R> ReaderSource<R> {
    /// A source without faults.
    pub fn new(reader: R) -> Self
        ensures stream { result.stream ≡ reader }
        ensures faults { result.faults ≡ 0 }
    {
        ReaderSource { reader, faults: 0 }
    }

    /// How often a read has failed. It stops at the greatest `u64`.
    pub fn faults(&self) -> u64
        ensures { result ≡ self.now.faults }
    {
        self.faults
    }
}

impl<R: Read> Source for ReaderSource<R> {
    ghost left = { λ _. None };

    ghost faults = { λ source. source.faults };

    fn read(&mut self, buf: &mut [u8]) -> ReadOutcome
        ensures read { IsRead None None self.old.faults self.new.faults buf.old buf.new result }
        ensures counts { self.old.faults ≤ self.new.faults }
        ensures faults { self.new.faults ≡ after_read self.old.faults result }
        ensures bytes { ReadsThrough (R.remaining self.old.stream) (R.remaining self.new.stream)
            buf.new result }
    {
        match self.reader.read(buf) {
            Ok(count) => ReadOutcome::Got(count),
            Err(_) => {
                self.faults = self.faults.saturating_add(1);
                ReadOutcome::Failed
            }
        }
    }
}
