use crate::{Sender, Value};

/// What a client of the mirror asks for.
#[derive(Debug, Drop, PartialEq, Eq)]
pub enum MirrorInput {
    /// A value goes to node 0.
    Put(Value),
}

/// What a client of the mirror is told.
#[derive(Debug, Drop, PartialEq, Eq)]
pub enum MirrorOutput {
    /// A value came from this node.
    From(Sender, Value),
}

/// A message to node 0.
#[derive(Debug, Drop, PartialEq, Eq)]
pub enum MirrorMsg {
    /// A value that was put.
    Item(Value),
}
