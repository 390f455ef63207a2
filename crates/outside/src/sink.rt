ghost use Rattle.std.specs.Prelude.{◌≡◌, ℕ, ◌≤◌, List, Option, length};
ghost use Rattle.outside.specs.Streams.{IsWritten, HasCause};

/// What a write came to.
#[derive(Clone, Copy, Debug, PartialEq, Eq)]
pub enum WriteOutcome {
    /// So many bytes of the front of the piece were taken, at least one of a piece that is not empty.
    Took(usize),
    /// The write failed, and nothing was taken.
    Failed,
    /// Want of memory: nothing was done, and no count of faults rose.
    Memory,
}

/// Where bytes are written to.
pub trait Sink {
    /// The bytes that were written, where the object tells them.
    ghost written: { Self → Option (List ℕ) };

    /// How often a write has failed.
    ghost faults: { Self → ℕ };

    /// How often a write has answered want of memory. This is no count of faults.
    ghost wants: { Self → ℕ };

    /// Writes a front of the piece after what was written.
    fn write(&mut self, piece: &[u8]) -> WriteOutcome
        ensures written { IsWritten (written self.old) (written self.new) piece.now result }
        ensures causes { HasCause (faults self.old) (faults self.new) (wants self.old) (wants self.new) result }
        ensures counts { faults self.old ≤ faults self.new }
        ensures wants { wants self.old ≤ wants self.new };
}
