ghost use Rattle.std.specs.Prelude.{◌≡◌, nat_eq};
ghost use Rattle.fifo_xform.specs.Peers.{peer_of, ready_number};

use crate::Peers;
use std::marker::Model;
use vst_base::Node;

/// What a node remembers: the state of the handlers within, and what is kept of each node, to number packets and to put them in order.
#[derive(Drop)]
pub struct FifoState<S, M> {
    pub(crate) inner: S,
    pub(crate) peers: Peers<M>,
}

impl<S, M> Model for FifoState<S, M> {
    ghost use Rattle.fifo_xform.specs.Fifo.{FifoState as State, fifo_state_code};

    ghost Value = { State S M };

    ghost coded = { fifo_state_code S.code M.code };

    ghost view = { λ s. record { inner = s.inner; peers = s.peers } };
}

impl<S, M: Drop> FifoState<S, M> {
    /// What the node's next tick gives to the handlers within, of these nodes: its sender, and its number. `None` where nothing is ready.
    pub fn ready(&self, nodes: u8) -> Option<(Node, u64)>
        ensures { result ≡ ready_number nodes self.now.peers }
    {
        self.peers.ready(nodes)
    }

    /// Whether a packet of the node with this number is given to the handlers within when it comes: whether it is the next of that node.
    pub fn expects(&self, from: Node, number: u64) -> bool
        ensures { result ≡ nat_eq number (peer_of self.now.peers from).expected }
    {
        self.peers.expects(from, number)
    }
}
