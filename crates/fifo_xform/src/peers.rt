ghost use Rattle.std.specs.Prelude.{◌≡◌, ◌+◌, ◌<◌, ◌^◌, [], length, IfNone, IfOk, IfSome, OnOk, is_some, nat_eq};
ghost use Rattle.fifo_xform.specs.Peers.{Peer as Kept, counting, held_next, holding, is_early, passed_numbers, passing, peer_of, ready, ready_number, with_peer};

use crate::Peer;
use std::alloc::{AllocError, Global};
use std::marker::Model;
use vst_base::Node;

/// What a node keeps of each node of its network. Contracts see a list by node, from node 0 on.
#[derive(Drop)]
pub struct Peers<M> {
    nodes: Vec<Peer<M>>,
}

impl<M> Model for Peers<M> {
    ghost use Rattle.std.specs.Coded.{coded_list};
    ghost use Rattle.fifo_xform.specs.Peers.{Peers as PeerList, peer_code};

    ghost Value = { PeerList M };

    ghost coded = { coded_list (peer_code M.code) };

    ghost view = { λ p. p.nodes.items };
}

// Makes a place for a node, with nothing kept of it where there was none.
fn reach<M: Drop>(alloc: Global, peers: &mut Vec<Peer<M>>, node: usize) -> Result<(), AllocError>
    ensures there { OnOk result (node < length peers.new.items) }
    ensures kept { OnOk result (peer_of peers.new.items node ≡ peer_of peers.old.items node) }
    ensures same { OnOk result ((p : Kept M) → with_peer peers.new.items node p ≡ with_peer peers.old.items node p) }
{
    while peers.len() <= node {
        peers.push(Peer::new(alloc))?;
    }
    Ok(())
}

impl<M: Drop> Peers<M> {
    /// Nothing is kept of any node. It takes no memory.
    pub fn new(alloc: Global) -> Self
        ensures { result ≡ [] }
    {
        Peers {
            nodes: Vec::new(alloc),
        }
    }

    /// Whether this is the number that is expected next from the node.
    pub fn expects(&self, from: Node, number: u64) -> bool
        ensures { result ≡ nat_eq number (peer_of self.now from).expected }
    {
        match self.nodes.get(usize::from(from.index())) {
            Some(peer) => peer.expects(number),
            None => number == 0,
        }
    }

    // The number that is expected next from the node.
    fn expected(&self, from: Node) -> u64
        ensures { result ≡ (peer_of self.now from).expected }
    {
        match self.nodes.get(usize::from(from.index())) {
            Some(peer) => peer.expected(),
            None => 0,
        }
    }

    // Whether something is held of the node under the expected number.
    fn is_ready(&self, from: Node) -> bool
        ensures { result ≡ is_some (held_next (peer_of self.now from)) }
    {
        match self.nodes.get(usize::from(from.index())) {
            Some(peer) => peer.is_ready(),
            None => false,
        }
    }

    /// The least of these nodes of which a content is held under the number that is expected next from it, and that number.
    #[tactic(auto, using(crate::proofs::Placing::reads))]
    pub fn ready(&self, nodes: u8) -> Option<(Node, u64)>
        ensures { result ≡ ready_number nodes self.now }
    {
        for place in 0..nodes {
            let from = Node::new(place, nodes).unwrap();
            if self.is_ready(from) {
                return Some((from, self.expected(from)));
            }
        }
        None
    }

    /// Whether the number is above the one that is expected next from the node, and nothing is held under it.
    pub fn is_early(&self, from: Node, number: u64) -> bool
        ensures { result ≡ is_early (peer_of self.now from) number }
    {
        match self.nodes.get(usize::from(from.index())) {
            Some(peer) => peer.is_early(number),
            None => number > 0,
        }
    }

    /// Gives out the number of the next packet to the node. After an `Err` they are given up.
    pub fn count(&mut self, alloc: Global, to: Node) -> Result<u64, AllocError>
        requires { (peer_of self.old to).next + 1 < 2 ^ 64 }
        ensures number { IfOk result (λ number. number ≡ (peer_of self.old to).next) }
        ensures counted { OnOk result (self.new ≡ counting self.old to) }
    {
        let place = usize::from(to.index());
        reach(alloc, &mut self.nodes, place)?;
        let peer = &mut self.nodes[place];
        Ok(peer.count())
    }

    /// Holds a content of the node under its number. After an `Err` they are given up.
    pub fn hold(
        &mut self,
        alloc: Global,
        from: Node,
        number: u64,
        content: M,
    ) -> Result<(), AllocError>
        ensures { OnOk result (self.new ≡ holding self.old from number content) }
    {
        let place = usize::from(from.index());
        reach(alloc, &mut self.nodes, place)?;
        let peer = &mut self.nodes[place];
        peer.hold(number, content)
    }

    /// Passes the number that is expected next from the node: a content that is held under it goes. After an `Err` they are given up.
    pub fn pass(&mut self, alloc: Global, from: Node) -> Result<(), AllocError>
        requires { (peer_of self.old from).expected + 1 < 2 ^ 64 }
        ensures { OnOk result (self.new ≡ passing self.old from) }
    {
        let place = usize::from(from.index());
        reach(alloc, &mut self.nodes, place)?;
        let peer = &mut self.nodes[place];
        peer.pass();
        Ok(())
    }

    // Passes the number that is expected next from this node where something is held under it, and answers that.
    fn pass_held(&mut self, node: u8) -> Option<M>
        requires { (peer_of self.old node).expected + 1 < 2 ^ 64 }
        ensures held { result ≡ held_next (peer_of self.old node) }
        ensures passed { IfSome result (λ _. self.new ≡ passing self.old node) }
        ensures unchanged { IfNone result (self.new ≡ self.old) }
    {
        let place = usize::from(node);
        if place >= self.nodes.len() {
            return None;
        }
        let peer = &mut self.nodes[place];
        peer.pass_held()
    }

    /// The least of these nodes of which a content is held under the number that is expected next from it, with this content, whose
    /// number is passed. Where there is none, nothing changes. It takes no memory.
    #[tactic(auto, using(crate::proofs::Placing::steps))]
    pub fn take_ready(&mut self, nodes: u8) -> Option<(Node, M)>
        requires { passed_numbers self.old + 1 < 2 ^ 64 }
        ensures ready { result ≡ ready nodes self.old }
        ensures exists { IfSome result (λ r. r.0 < nodes) }
        ensures passed { IfSome result (λ r. self.new ≡ passing self.old r.0) }
        ensures unchanged { IfNone result (self.new ≡ self.old) }
    {
        for n in 0..nodes {
            if let Some(content) = self.pass_held(n) {
                let from = Node::new(n, nodes).unwrap();
                return Some((from, content));
            }
        }
        None
    }
}
