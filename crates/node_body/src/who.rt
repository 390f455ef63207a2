ghost use Rattle.std.specs.Prelude.{◌≡◌};
ghost use Rattle.node_body.specs.Bodies.{who_of};

use vst_base::StackId;
use wire_fields::NAME_LEN;

/// Whose state it is: the stack, the node, by its number from 0, of so many nodes, and the name of their cluster.
#[derive(Clone, Copy, Debug, PartialEq, Eq)]
pub struct Who {
    pub stack: StackId,
    pub me: u8,
    pub nodes: u8,
    pub name: [u8; NAME_LEN],
}

/// Whose state a body says that it is. Bodies of version 1 have no name.
#[derive(Clone, Copy, Debug, PartialEq, Eq)]
pub struct Owner {
    pub stack: StackId,
    pub me: u8,
    pub nodes: u8,
    pub name: Option<[u8; NAME_LEN]>,
}

impl Owner {
    /// The same under this name.
    pub fn named(&self, name: [u8; NAME_LEN]) -> Who
        ensures { result ≡ who_of self.now name }
    {
        Who {
            stack: self.stack,
            me: self.me,
            nodes: self.nodes,
            name,
        }
    }
}
