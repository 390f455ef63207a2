use vst_base::{Net, StackId};

/// What the header of a schedule says: the network, the stack, and how many nodes there are.
#[derive(Clone, Copy, Debug, PartialEq, Eq)]
pub struct Header {
    pub net: Net,
    pub stack: StackId,
    pub nodes: u8,
}
