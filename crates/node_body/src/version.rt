ghost use Rattle.std.specs.Prelude.{◌≡◌};
ghost use Rattle.node_body.specs.Bodies.{is_spelled_in, most_nodes};

use vst_base::{MAX_NODES, StackId};

/// How a body is spelled.
#[derive(Clone, Copy, Debug, PartialEq, Eq)]
pub enum Version {
    /// Without a cluster's name, and with requests alone in its log. Such bodies are read, and no longer written.
    One,
    /// With a name, and with no-ops.
    Two,
}

impl Version {
    /// How many nodes a cluster has at most.
    pub fn most_nodes(self) -> u8
        ensures { result ≡ most_nodes self }
    {
        match self {
            Version::One => 5,
            Version::Two => MAX_NODES,
        }
    }

    /// Whether a stack has bodies of this version: those of the first came before some stacks.
    pub fn spells(self, stack: StackId) -> bool
        ensures { result ≡ is_spelled_in self stack }
    {
        match self {
            Version::One => matches!(stack, StackId::KvRaft | StackId::TableRaft),
            Version::Two => true,
        }
    }
}
