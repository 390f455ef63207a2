ghost use Rattle.std.specs.Prelude.{◌≡◌, Bool, IsTrue};

use crate::Machine;

/// A machine of whose commands some only read: they are answered from a state, and leave it as it is.
pub trait Queries: Machine {
    /// Which commands read.
    ghost reads: { Self → Self.Cmd → Bool };

    /// Whether the command reads.
    fn is_read(&self, cmd: &Self::Cmd) -> bool
        ensures { result ≡ reads self.now cmd.now };

    /// A read leaves the state as it is.
    ghost leaves: { (m : Self) (s : Self.State) (c : Self.Cmd) → IsTrue (reads m c) → ((Self.meaning m).apply s c).0 ≡ s };
}
