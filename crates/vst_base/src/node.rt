ghost use Rattle.std.specs.Prelude.{◌≡◌, ℕ, ◌<◌, ◌↔◌, IsSome, IfSome};

use std::marker::Model;

/// The greatest number of nodes of a cluster.
pub const MAX_NODES: u8 = 9;

/// A node of a cluster, by its number from 0. Contracts see the number.
#[derive(Clone, Copy, Debug, PartialEq, Eq, PartialOrd, Ord, Hash)]
pub struct Node {
    index: u8,
}

impl Model for Node {
    ghost Value = { ℕ };

    ghost view = { λ n. n.index };

    ghost inverse = { λ n. record { index = n } };
}

impl Node {
    /// Node `n` of a cluster of `nodes`, and `None` where there is no such node.
    pub fn new(n: u8, nodes: u8) -> Option<Self>
        ensures exists { IsSome result ↔ (n < nodes) }
        ensures number { IfSome result (λ node. node ≡ n) }
    {
        if n < nodes {
            Some(Node { index: n })
        } else {
            None
        }
    }

    /// Its number.
    pub fn index(self) -> u8
        ensures { result ≡ self }
    {
        self.index
    }
}
