use crate::Command;
use std::marker::Model;

/// How many turns a node takes at most.
pub const MAX_TURNS: u32 = 1_000_000_000;

/// What the words ask for.
#[derive(Debug, Drop)]
pub enum Asked {
    /// A command over texts.
    Texts(Command),
    /// A node over a device.
    Node(NodeWords),
}

/// A node to run. Contracts see the record of its parts, with the bytes of its directory.
#[derive(Debug, Drop)]
pub struct NodeWords {
    /// Which node of its configuration it is, from 0 and below `MAX_NODES`.
    pub me: u8,
    /// For how many turns it runs, from 1 to `MAX_TURNS`.
    pub turns: u32,
    /// The directory of its state: any text, and the empty one too.
    pub state: String,
}

impl Model for NodeWords {
    ghost use Rattle.std.specs.Prelude.{string_bytes};
    ghost use Rattle.command_line.specs.AskedNodes.{NodeWordsView};

    ghost Value = { NodeWordsView };

    ghost view = { λ n. record { me = n.me; turns = n.turns; state = string_bytes n.state } };
}
