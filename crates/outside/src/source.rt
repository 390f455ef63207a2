ghost use Rattle.std.specs.Prelude.{◌≡◌, ℕ, ◌≤◌, List, Option, length};
ghost use Rattle.outside.specs.Streams.{IsRead};

/// What a read came to.
#[derive(Clone, Copy, Debug, PartialEq, Eq)]
pub enum ReadOutcome {
    /// So many bytes, at the front of the buffer. 0 into a buffer that is not empty is the end.
    Got(usize),
    /// The read failed.
    Failed,
}

/// Where bytes are read from.
pub trait Source {
    /// The bytes that are left, where the object tells them.
    ghost left: { Self → Option (List ℕ) };

    /// How often a read has failed.
    ghost faults: { Self → ℕ };

    /// Reads up to the buffer's length of the bytes that are left, which go away. A read that fails
    /// leaves them, and counts a fault. No other read counts one.
    fn read(&mut self, buf: &mut [u8]) -> ReadOutcome
        ensures read { IsRead (left self.old) (left self.new) (faults self.old) (faults self.new) buf.old buf.new result }
        ensures counts { faults self.old ≤ faults self.new };
}
