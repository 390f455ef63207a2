ghost use Rattle.std.specs.Prelude.{◌≡◌, ◌+◌, ◌-◌, ◌^◌, ◌<◌, ◌≤◌, true, [], ◌∷◌, ◌++◌, length, get_or, count_by, is_some, replicate, slice_set, slice_get, OnOk, OnErr};
ghost use Rattle.std.specs.Option.{unwrap_or};
ghost use Rattle.flight_index.specs.Flights.{goes_up, numbers_of};

use crate::tree::{NODES, Tree};
use std::alloc::{AllocError, Global};
use std::marker::Model;
use vst_base::{MAX_NODES, Node};

/// The packets in flight by rank, and which nodes are up. Contracts see a list with one place for each packet that was sent, in
/// order: the packet's destination while a copy is in flight, and nothing once none is. Each call but `sent` takes no memory, and
/// the time of each grows with the logarithm of the number of packets.
#[derive(Drop)]
pub struct FlightIndex {
    alloc: Global,
    tree: Option<Tree>,
    up: [bool; NODES],
}

impl Model for FlightIndex {
    ghost use Rattle.std.specs.Prelude.{[]};
    ghost use Rattle.std.specs.Option.{unwrap_or};
    ghost use Rattle.flight_index.specs.Flights.{Flights};

    ghost Value = { Flights };

    ghost view = { λ f. record { packets = unwrap_or f.tree []; up = f.up } };

    ghost use Rattle.std.specs.Prelude.{◌≡◌, ◌<◌, ◌^◌, true, length};
    ghost use Rattle.std.specs.List.{list_all};
    ghost use Rattle.flight_index.specs.Flights.{is_within};

    ghost invariant = { λ f. (length (unwrap_or f.tree []) < 2 ^ 32) × (list_all is_within (unwrap_or f.tree []) ≡ true) };
}

impl FlightIndex {
    /// No packet yet, and each node is up.
    pub fn new(alloc: Global) -> Self
        ensures { result ≡ record { packets = []; up = replicate MAX_NODES true } }
    {
        FlightIndex {
            alloc,
            tree: None,
            up: [true; NODES],
        }
    }

    /// A packet to this node was sent. An `Err` changes nothing.
    pub fn sent(&mut self, to: Node) -> Result<(), AllocError>
        requires node { to < MAX_NODES }
        requires room { length self.old.packets < 2 ^ 32 - 1 }
        ensures ok { OnOk result (self.new.packets ≡ self.old.packets ++ Some to ∷ []) }
        ensures err { OnErr result (self.new ≡ self.old) }
        ensures up { self.new.up ≡ self.old.up }
    {
        match &mut self.tree {
            Some(tree) => tree.push(self.alloc, to)?,
            None => self.tree = Some(Tree::page(self.alloc, to)?),
        }
        Ok(())
    }

    /// No copy of packet `k` is in flight any more.
    pub fn gone(&mut self, k: u32)
        requires { k < length self.old.packets }
        ensures packets { self.new.packets ≡ slice_set self.old.packets k None }
        ensures up { self.new.up ≡ self.old.up }
    {
        if let Some(tree) = &mut self.tree {
            let _destination = tree.gone(k);
        }
    }

    /// A copy of packet `k`, of which none was in flight, is in flight to this node.
    pub fn back(&mut self, k: u32, to: Node)
        requires place { k < length self.old.packets }
        requires none { get_or self.old.packets k None ≡ None }
        requires node { to < MAX_NODES }
        ensures packets { self.new.packets ≡ slice_set self.old.packets k (Some to) }
        ensures up { self.new.up ≡ self.old.up }
    {
        if let Some(tree) = &mut self.tree {
            tree.back(k, to);
        }
    }

    /// Whether this node is up from now on.
    pub fn set_up(&mut self, node: Node, is_up: bool)
        requires { node < MAX_NODES }
        ensures up { self.new.up ≡ slice_set self.old.up node is_up }
        ensures packets { self.new.packets ≡ self.old.packets }
    {
        self.up[node.index() as usize] = is_up;
    }

    /// How many packets have a copy in flight.
    #[tactic(auto, using(crate::proofs::Counts::count_anywhere))]
    pub fn in_flight(&self) -> u32
        ensures { result ≡ length (numbers_of is_some 0 self.now.packets) }
    {
        count(&self.tree, &[true; NODES])
    }

    /// The `i`-th packet, from 0, that has a copy in flight, and `None` where there are no more than `i` of them.
    #[tactic(auto, using(crate::proofs::Counts::numbers_anywhere))]
    pub fn nth_in_flight(&self, i: u32) -> Option<u32>
        ensures { result ≡ slice_get (numbers_of is_some 0 self.now.packets) i }
    {
        nth(&self.tree, &[true; NODES], i)
    }

    /// How many packets have a copy in flight to a node that is up.
    #[tactic(auto, using(crate::proofs::Ranks::length_numbers_of))]
    pub fn deliverable(&self) -> u32
        ensures { result ≡ length (numbers_of (goes_up self.now.up) 0 self.now.packets) }
    {
        count(&self.tree, &self.up)
    }

    /// The `i`-th packet, from 0, that has a copy in flight to a node that is up, and `None` where there are no more than `i`.
    pub fn nth_deliverable(&self, i: u32) -> Option<u32>
        ensures { result ≡ slice_get (numbers_of (goes_up self.now.up) 0 self.now.packets) i }
    {
        nth(&self.tree, &self.up, i)
    }
}

// How many packets are in flight to nodes of `up`.
fn count(tree: &Option<Tree>, up: &[bool; NODES]) -> u32
    ensures { result ≡ count_by (goes_up up.now) (unwrap_or tree.now []) }
{
    match tree {
        Some(tree) => tree.count(up),
        None => 0,
    }
}

// The `i`-th packet that is in flight to a node of `up`.
fn nth(tree: &Option<Tree>, up: &[bool; NODES], i: u32) -> Option<u32>
    requires { length (unwrap_or tree.now []) < 2 ^ 32 }
    ensures { result ≡ slice_get (numbers_of (goes_up up.now) 0 (unwrap_or tree.now [])) i }
{
    match tree {
        Some(tree) => tree.nth(0, up, i),
        None => None,
    }
}
