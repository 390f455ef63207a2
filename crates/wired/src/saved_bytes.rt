ghost use Rattle.std.specs.Prelude.{◌≡◌};

use std::marker::Model;

/// What a node that stops keeps: the bytes of what it would start from, or any others. Contracts see the bytes.
#[derive(Debug, Drop)]
pub struct SavedBytes {
    bytes: Vec<u8>,
}

impl Model for SavedBytes {
    ghost use Rattle.std.specs.Prelude.{ℕ, List};

    ghost Value = { List ℕ };

    ghost view = { λ s. s.bytes.items };
}

impl SavedBytes {
    /// These bytes.
    pub fn new(bytes: Vec<u8>) -> Self
        ensures { result ≡ bytes.items }
    {
        SavedBytes { bytes }
    }

    /// Its bytes.
    pub fn bytes(&self) -> &[u8]
        ensures { result.now ≡ self.now }
    {
        &self.bytes
    }
}
