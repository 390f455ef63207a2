ghost use Rattle.std.specs.Prelude.{◌≡◌, ℕ, ◌<◌, ◌≤◌, length, min, drop, Some};
ghost use Rattle.outside.specs.Streams.{IsRead};
ghost use Rattle.outside_mem.specs.Sources.{SourceState, read_outcome, after_read, filled};

use crate::unread::Unread;
use outside::{ReadOutcome, Source};
use std::marker::Model;

/// A source over memory that follows a script: it cuts its reads, and fails at stated calls. Each call that fails counts a
/// fault, and no other does.
#[derive(Drop)]
pub struct MemorySource {
    unread: Unread,
    most: usize,
    failing: Vec<u64>,
    calls: u64,
    faults: u64,
}

impl Model for MemorySource {
    ghost use Rattle.std.specs.Prelude.{◌<◌};
    ghost use Rattle.outside_mem.specs.Sources.{SourceState};

    ghost Value = { SourceState };

    ghost view = { λ source. record {
      left = source.unread;
      most = source.most;
      failing = source.failing.items;
      calls = source.calls;
      faults = source.faults;
    } };

    ghost invariant = { λ source. 0 < source.most };
}

impl MemorySource {
    /// A source of these bytes, which gives at most so many in a read, and fails at the calls of these
    /// numbers, counted from 1.
    pub fn new(bytes: Vec<u8>, most_per_read: usize, failing: Vec<u64>) -> Self
        requires { 0 < most_per_read }
        ensures left { result.left ≡ bytes.items }
        ensures script { (result.most ≡ most_per_read) × (result.failing ≡ failing.items) }
        ensures counts { (result.calls ≡ 0) × (result.faults ≡ 0) }
    {
        MemorySource {
            unread: Unread::new(bytes),
            most: most_per_read,
            failing,
            calls: 0,
            faults: 0,
        }
    }

    /// The bytes that are left.
    pub fn left(&self) -> &[u8]
        ensures { result.now ≡ self.now.left }
    {
        self.unread.left()
    }

    /// How often it was called. It stops at the greatest `u64`.
    pub fn calls(&self) -> u64
        ensures { result ≡ self.now.calls }
    {
        self.calls
    }

    /// How often a read has failed. It stops at the greatest `u64`.
    pub fn faults(&self) -> u64
        ensures { result ≡ self.now.faults }
    {
        self.faults
    }
}

impl Source for MemorySource {
    ghost left = { λ source. Some source.left };

    ghost faults = { λ source. source.faults };

    fn read(&mut self, buf: &mut [u8]) -> ReadOutcome
        ensures read { IsRead (Some self.old.left) (Some self.new.left) self.old.faults self.new.faults
            buf.old buf.new result }
        ensures counts { self.old.faults ≤ self.new.faults }
        ensures outcome { result ≡ read_outcome self.old (length buf.old) }
        ensures after { self.new ≡ after_read self.old result }
        ensures buffer { buf.new ≡ filled self.old.left result buf.old }
    {
        self.calls = self.calls.saturating_add(1);
        if self.failing.contains(&self.calls) {
            self.faults = self.faults.saturating_add(1);
            return ReadOutcome::Failed;
        }
        ReadOutcome::Got(self.unread.take(self.most, buf))
    }
}

/// A source over memory that never fails, and gives as much as fits.
#[derive(Drop)]
pub struct SteadySource {
    unread: Unread,
}

impl Model for SteadySource {
    ghost use Rattle.std.specs.Prelude.{ℕ, List};

    ghost Value = { List ℕ };

    ghost view = { λ source. source.unread };
}

impl SteadySource {
    /// A source of these bytes.
    pub fn new(bytes: Vec<u8>) -> Self
        ensures { result ≡ bytes.items }
    {
        SteadySource {
            unread: Unread::new(bytes),
        }
    }

    /// The bytes that are left.
    pub fn left(&self) -> &[u8]
        ensures { result.now ≡ self.now }
    {
        self.unread.left()
    }
}

impl Source for SteadySource {
    ghost left = { λ source. Some source };

    ghost faults = { λ _. 0 };

    fn read(&mut self, buf: &mut [u8]) -> ReadOutcome
        ensures read { IsRead (Some self.old) (Some self.new) 0 0 buf.old buf.new result }
        ensures outcome { result ≡ ReadOutcome.Got (min (length buf.old) (length self.old)) }
        ensures left { self.new ≡ drop (length buf.old) self.old }
        ensures buffer { buf.new ≡ filled self.old result buf.old }
    {
        let room = buf.len();
        ReadOutcome::Got(self.unread.take(room, buf))
    }
}
