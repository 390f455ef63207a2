use raft_types::{RaftInput, RaftMsg};
use vst_base::Node;

/// What happens to a node, over commands of a machine.
#[derive(Drop)]
pub enum Event<C> {
    /// Its timer fires.
    Tick,
    /// A packet comes from another node.
    Peer { from: Node, message: RaftMsg<C> },
    /// A client, who is known by the number of its slot, asks something.
    Asked(RaftInput<C>),
}
