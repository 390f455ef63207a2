use std::marker::Model;
use vst_base::Node;

/// A packet that an event sent: where it goes, and what it says in words.
#[derive(Drop)]
pub struct Sent {
    pub to: Node,
    pub words: Vec<u8>,
}

/// What an event told: its outputs, and the packets that it sent. Contracts see the outputs alone.
#[derive(Drop)]
pub struct Told<O> {
    pub outputs: Vec<O>,
    pub sent: Vec<Sent>,
}

impl<O> Model for Told<O> {
    ghost use Rattle.std.specs.Prelude.{List};

    ghost Value = { List O };

    ghost view = { λ t. t.outputs.items };
}
