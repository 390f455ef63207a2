ghost use Rattle.std.specs.Prelude.{◌≡◌, ◌<◌, ◌≤◌, [], length, Some};
ghost use Rattle.outside.specs.Streams.{IsWritten, HasCause};
ghost use Rattle.outside_mem.specs.Sinks.{MayAnswer, after_write, WritesSteadily};

use outside::{Sink, WriteOutcome};
use std::alloc::Global;
use std::marker::Model;

/// A sink over memory that follows a script: it cuts its writes, and fails or wants memory at stated
/// calls. It also wants memory where its bytes cannot be kept.
#[derive(Drop)]
pub struct MemorySink {
    written: Vec<u8>,
    most: usize,
    failing: Vec<u64>,
    wanting: Vec<u64>,
    calls: u64,
    faults: u64,
    wants: u64,
}

impl Model for MemorySink {
    ghost use Rattle.std.specs.Prelude.{◌<◌};
    ghost use Rattle.outside_mem.specs.Sinks.{SinkState};

    ghost Value = { SinkState };

    ghost view = { λ sink. record {
      written = sink.written.items;
      most = sink.most;
      failing = sink.failing.items;
      wanting = sink.wanting.items;
      calls = sink.calls;
      faults = sink.faults;
      wants = sink.wants;
    } };

    ghost invariant = { λ sink. 0 < sink.most };
}

impl MemorySink {
    /// An empty sink, which takes at most so many bytes in a write. Calls are counted from 1. It fails at
    /// those of the first numbers, and wants memory at those of the second that don't fail.
    pub fn new(alloc: Global, most_per_write: usize, failing: Vec<u64>, wanting: Vec<u64>) -> Self
        requires { 0 < most_per_write }
        ensures written { result.written ≡ [] }
        ensures most { result.most ≡ most_per_write }
        ensures script { (result.failing ≡ failing.items) × (result.wanting ≡ wanting.items) }
        ensures counts { (result.calls ≡ 0) × (result.faults ≡ 0) × (result.wants ≡ 0) }
    {
        MemorySink {
            written: Vec::new(alloc),
            most: most_per_write,
            failing,
            wanting,
            calls: 0,
            faults: 0,
            wants: 0,
        }
    }

    /// The bytes that were written.
    pub fn written(&self) -> &[u8]
        ensures { result.now ≡ self.now.written }
    {
        &self.written
    }

    /// How often it was called. It stops at the greatest `u64`.
    pub fn calls(&self) -> u64
        ensures { result ≡ self.now.calls }
    {
        self.calls
    }

    /// How often a write has failed. It stops at the greatest `u64`.
    pub fn faults(&self) -> u64
        ensures { result ≡ self.now.faults }
    {
        self.faults
    }

    /// How often a write has wanted memory. It stops at the greatest `u64`.
    pub fn wants(&self) -> u64
        ensures { result ≡ self.now.wants }
    {
        self.wants
    }
}

impl Sink for MemorySink {
    ghost written = { λ sink. Some sink.written };

    ghost faults = { λ sink. sink.faults };

    ghost wants = { λ sink. sink.wants };

    fn write(&mut self, piece: &[u8]) -> WriteOutcome
        ensures written { IsWritten (Some self.old.written) (Some self.new.written) piece.now result }
        ensures causes { HasCause self.old.faults self.new.faults
            self.old.wants self.new.wants result }
        ensures counts { self.old.faults ≤ self.new.faults }
        ensures wants { self.old.wants ≤ self.new.wants }
        ensures outcome { MayAnswer self.old (length piece.now) result }
        ensures after { self.new ≡ after_write self.old piece.now result }
    {
        self.calls = self.calls.saturating_add(1);
        if self.failing.contains(&self.calls) {
            self.faults = self.faults.saturating_add(1);
            return WriteOutcome::Failed;
        }
        let count = piece.len().min(self.most);
        if self.wanting.contains(&self.calls)
            || self.written.extend_from_slice(&piece[..count]).is_err()
        {
            self.wants = self.wants.saturating_add(1);
            return WriteOutcome::Memory;
        }
        WriteOutcome::Took(count)
    }
}

/// A sink over memory that never fails, and takes whole pieces. It wants memory where its bytes cannot be
/// kept.
#[derive(Drop)]
pub struct SteadySink {
    written: Vec<u8>,
    wants: u64,
}

impl Model for SteadySink {
    ghost use Rattle.outside_mem.specs.Sinks.{SteadySinkState};

    ghost Value = { SteadySinkState };

    ghost view = { λ sink. record { written = sink.written.items; wants = sink.wants } };
}

impl SteadySink {
    /// An empty sink.
    pub fn new(alloc: Global) -> Self
        ensures written { result.written ≡ [] }
        ensures wants { result.wants ≡ 0 }
    {
        SteadySink {
            written: Vec::new(alloc),
            wants: 0,
        }
    }

    /// The bytes that were written.
    pub fn written(&self) -> &[u8]
        ensures { result.now ≡ self.now.written }
    {
        &self.written
    }

    /// How often a write has wanted memory. It stops at the greatest `u64`.
    pub fn wants(&self) -> u64
        ensures { result ≡ self.now.wants }
    {
        self.wants
    }
}

impl Sink for SteadySink {
    ghost written = { λ sink. Some sink.written };

    ghost faults = { λ _. 0 };

    ghost wants = { λ sink. sink.wants };

    fn write(&mut self, piece: &[u8]) -> WriteOutcome
        ensures written { IsWritten (Some self.old.written) (Some self.new.written) piece.now result }
        ensures causes { HasCause 0 0 self.old.wants self.new.wants result }
        ensures wants { self.old.wants ≤ self.new.wants }
        ensures steady { WritesSteadily self.old self.new piece.now result }
    {
        if self.written.extend_from_slice(piece).is_err() {
            self.wants = self.wants.saturating_add(1);
            return WriteOutcome::Memory;
        }
        WriteOutcome::Took(piece.len())
    }
}
