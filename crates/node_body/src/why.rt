use wire_fields::NAME_LEN;

/// Why a node does not take the state of a slot, the first that applies.
#[derive(Clone, Copy, Debug, PartialEq, Eq)]
pub enum Why {
    /// The bytes are no length with at least as many bytes after it.
    Slot,
    /// There is no body of either version there, of its own stack's commands, or its node is not one of its nodes.
    Body,
    /// An open gate is not followed by a whole record in its ranges and a gate, or too many records were.
    Journal,
    /// The state is of another stack: the bytes of the two.
    Stack {
        kept: u8,
        configured: u8,
    },
    /// The state is of another node.
    Node {
        kept: u8,
        configured: u8,
    },
    /// The cluster has another number of nodes.
    Cluster {
        kept: u8,
        configured: u8,
    },
    /// The cluster has another name.
    Name {
        kept: [u8; NAME_LEN],
        configured: [u8; NAME_LEN],
    },
}
