ghost use Rattle.std.specs.Prelude.{◌≡◌, ◌++◌, ◌≤◌, min, length, take, drop};

use std::marker::Model;

/// Bytes of which a front was taken. Contracts see those that are left.
#[derive(Drop)]
pub struct Unread {
    bytes: Vec<u8>,
    taken: usize,
}

impl Model for Unread {
    ghost use Rattle.std.specs.Prelude.{ℕ, List, ◌≤◌, length, drop};

    ghost Value = { List ℕ };

    ghost view = { λ u. drop u.taken u.bytes.items };

    ghost invariant = { λ u. u.taken ≤ length u.bytes.items };
}

impl Unread {
    pub fn new(bytes: Vec<u8>) -> Self
        ensures { result ≡ bytes.items }
    {
        Unread { bytes, taken: 0 }
    }

    pub fn left(&self) -> &[u8]
        ensures { result.now ≡ self.now }
    {
        &self.bytes[self.taken..]
    }

    /// Takes bytes into the front of the buffer: at most so many, and as many as there are and fit.
    pub fn take(&mut self, most: usize, buf: &mut [u8]) -> usize
        ensures count { result ≡ min (min (length buf.old) most) (length self.old) }
        ensures filled { buf.new ≡ take result self.old ++ drop result buf.old }
        ensures left { self.new ≡ drop result self.old }
    {
        let count = buf.len().min(most).min(self.bytes.len() - self.taken);
        buf[..count].copy_from_slice(&self.bytes[self.taken..self.taken + count]);
        self.taken += count;
        count
    }
}
