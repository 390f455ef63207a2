ghost use Rattle.std.specs.Prelude.{◌≡◌};

use std::marker::Model;

/// A request of a client, by the number that the client gives it. A client is to give later ones greater
/// numbers.
/// Contracts see the number.
#[derive(Clone, Copy, Debug, PartialEq, Eq, PartialOrd, Ord, Hash)]
pub struct ReqId {
    number: u64,
}

impl Model for ReqId {
    ghost use Rattle.std.specs.Prelude.{ℕ};

    ghost Value = { ℕ };

    ghost view = { λ r. r.number };

    ghost inverse = { λ n. record { number = n } };
}

impl ReqId {
    /// The request of this number.
    pub fn new(number: u64) -> Self
        ensures { result ≡ number }
    {
        ReqId { number }
    }

    /// Its number.
    pub fn number(self) -> u64
        ensures { result ≡ self }
    {
        self.number
    }
}
