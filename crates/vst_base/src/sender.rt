ghost use Rattle.std.specs.Prelude.{◌≡◌, ◌<◌};
ghost use Rattle.vst_base.specs.declared.node.TheConstants.{MAX_NODES};

use crate::Node;
use std::marker::Model;

/// The node that a value came from, below `MAX_NODES`. Contracts see its number.
#[derive(Clone, Copy, Debug, PartialEq, Eq)]
pub struct Sender {
    node: Node,
}

impl Model for Sender {
    ghost use Rattle.std.specs.Prelude.{◌<◌, ℕ};
    ghost use Rattle.vst_base.specs.declared.node.TheConstants.{MAX_NODES};

    ghost Value = { ℕ };

    ghost view = { λ s. s.node };

    ghost invariant = { λ s. s.node < MAX_NODES };

    ghost inverse = { λ n. record { node = n } };
}

impl Sender {
    /// This node, as the one that a value came from.
    pub fn new(node: Node) -> Self
        requires { node < MAX_NODES }
        ensures { result ≡ node }
    {
        Sender { node }
    }

    /// Its number.
    pub fn index(self) -> u8
        ensures value { result ≡ self }
        ensures in_range { result < MAX_NODES }
    {
        self.node.index()
    }
}
