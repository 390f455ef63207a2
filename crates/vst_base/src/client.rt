ghost use Rattle.std.specs.Prelude.{◌≡◌};

use std::marker::Model;

/// A client of a replicated machine, by the number that it goes by. Contracts see the number.
#[derive(Clone, Copy, Debug, PartialEq, Eq, PartialOrd, Ord, Hash)]
pub struct ClientId {
    number: u64,
}

impl Model for ClientId {
    ghost use Rattle.std.specs.Prelude.{ℕ};

    ghost Value = { ℕ };

    ghost view = { λ c. c.number };

    ghost inverse = { λ n. record { number = n } };
}

impl ClientId {
    /// The client of this number.
    pub fn new(number: u64) -> Self
        ensures { result ≡ number }
    {
        ClientId { number }
    }

    /// Its number.
    pub fn number(self) -> u64
        ensures { result ≡ self }
    {
        self.number
    }
}
