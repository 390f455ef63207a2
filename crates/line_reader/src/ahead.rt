ghost use Rattle.std.specs.Prelude.{◌≡◌, ◌≢◌, ◌≤◌, [], length, drop};
ghost use Rattle.line_reader.specs.Lines.{LastEnds, has_cut};
ghost use Rattle.line_reader.specs.Filling.{Fills};

use crate::cuts::NEWLINE;
use memchr::memrchr;
use outside::{ReadOutcome, Source};
use std::marker::Model;

/// Bytes that were read from a source and are not used yet, at most 4,096. Contracts see those bytes.
#[derive(Drop)]
pub(crate) struct Ahead {
    buf: [u8; 4_096],
    start: usize,
    end: usize,
    // where the last newline before `end` ends, used or not; 0 where there is none
    lines_end: usize,
}

impl Model for Ahead {
    ghost use Rattle.std.specs.Prelude.{◌≤◌, ℕ, List, take, drop};
    ghost use Rattle.line_reader.specs.Lines.{LastEnds};

    ghost Value = { List ℕ };

    ghost view = { λ a. drop a.start (take a.end a.buf) };

    ghost invariant = { λ a. (a.start ≤ a.end) × (a.end ≤ 4096) × LastEnds 10 (take a.end a.buf) a.lines_end };
}

// Where the last newline of these bytes ends; 0 where there is none.
fn end_of_lines(bytes: &[u8]) -> usize
    ensures { LastEnds 10 bytes.now result }
{
    match memrchr(NEWLINE, bytes) {
        Some(place) => place + 1,
        None => 0,
    }
}

impl Ahead {
    /// No bytes yet.
    pub fn new() -> Self
        ensures { result ≡ [] }
    {
        Ahead {
            buf: [0; 4_096],
            start: 0,
            end: 0,
            lines_end: 0,
        }
    }

    /// The bytes.
    pub fn bytes(&self) -> &[u8]
        ensures is { result.now ≡ self.now }
        ensures few { length self.now ≤ 4096 }
    {
        &self.buf[self.start..self.end]
    }

    /// Whether a newline is among them.
    pub fn has_newline(&self) -> bool
        ensures { result ≡ has_cut 10 self.now }
    {
        self.start < self.lines_end
    }

    /// Uses so many of them.
    pub fn skip(&mut self, count: usize)
        requires { count ≤ length self.old }
        ensures { self.new ≡ drop count self.old }
    {
        self.start += count;
    }

    /// Uses all of them.
    pub fn clear(&mut self)
        ensures { self.new ≡ [] }
    {
        self.start = 0;
        self.end = 0;
        self.lines_end = 0;
    }

    /// Reads further bytes in place of those that there are.
    pub fn refill<S: Source>(&mut self, source: &mut S) -> ReadOutcome
        ensures fills { Fills (S.left source.old) (S.left source.new) (S.faults source.old) (S.faults source.new) self.new result }
        ensures few { length self.new ≤ 4096 }
        ensures quiet { result ≢ ReadOutcome.Failed → S.faults source.new ≡ S.faults source.old }
        ensures counts { S.faults source.old ≤ S.faults source.new }
    {
        self.start = 0;
        self.end = 0;
        self.lines_end = 0;
        let outcome = source.read(&mut self.buf);
        if let ReadOutcome::Got(count) = outcome {
            self.end = count;
            self.lines_end = end_of_lines(&self.buf[..count]);
        }
        outcome
    }
}
