// Packets in a tree that counts, at each fork, how many are in flight to each node.
ghost use Rattle.std.specs.Prelude.{◌≡◌, ℕ, List, Option, ◌+◌, ◌-◌, ◌^◌, ◌<◌, ◌≤◌, [], ◌∷◌, ◌++◌, length, count_by, get_or, slice_set, slice_get, OnOk, OnErr, IfOk};
ghost use Rattle.flight_index.specs.Flights.{goes_up, numbers_of, IsCounted};

use std::alloc::{AllocError, Global};
use std::marker::Model;
use std::mem;
use vst_base::{MAX_NODES, Node};

/// How many nodes are counted for.
pub const NODES: usize = MAX_NODES as usize;

// How many packets a page holds. One that is full gets no more, and is searched from its beginning.
const PAGE: usize = 64;

/// At least one packet. Contracts see the list of packets.
#[cycle(tree)]
#[derive(Drop)]
pub struct Tree {
    len: u32,
    counts: [u32; NODES],
    branch: Branch,
}

#[cycle(tree)]
#[derive(Drop)]
enum Branch {
    Page(Vec<Option<Node>>),
    Fork(Box<Tree>, Box<Tree>),
}

impl Model for Tree {
    ghost use Rattle.std.specs.Prelude.{ℕ, List, Option, length};

    ghost Value = { List (Option ℕ) };

    ghost use Rattle.flight_index.specs.Flights.{IsCounted};
    ghost use Rattle.flight_index.specs.Trees.{packets_of, HasPackets};

    ghost view = { λ t. packets_of t.branch };

    ghost invariant = { λ t. HasPackets t.branch × IsCounted (packets_of t.branch) t.len t.counts };

    ghost size = { length };

    ghost use Rattle.flight_index.specs.TreeFalls.{depth_le-length-packets};

    ghost size_decreases = { λ t h. depth_le-length-packets t.branch h.0 };
}

impl Tree {
    /// One packet, in flight to this node.
    pub fn page(alloc: Global, to: Node) -> Result<Tree, AllocError>
        requires { to < MAX_NODES }
        ensures { IfOk result (λ tree. tree ≡ Some to ∷ []) }
    {
        let mut packets = Vec::new(alloc);
        packets.push(Some(to))?;
        let mut counts = [0; NODES];
        counts[to.index() as usize] = 1;
        Ok(Tree {
            len: 1,
            counts,
            branch: Branch::Page(packets),
        })
    }

    /// How many packets it has.
    pub fn len(&self) -> u32
        ensures { result ≡ length self.now }
    {
        self.len
    }

    /// How many of its packets are in flight to a node that is up.
    pub fn count(&self, up: &[bool; NODES]) -> u32
        ensures { result ≡ count_by (goes_up up.now) self.now }
    {
        // So many at most: the sum fits.
        let _len = self.len;
        let mut total = 0;
        for (k, n) in self.counts.iter().enumerate() {
            if up[k] {
                total += *n;
            }
        }
        total
    }

    /// The `i`-th number, from 0, of a packet that is in flight to a node that is up, where the first packet has the number
    /// `from`; `None` where there are no more than `i` of them.
    pub fn nth(&self, from: u32, up: &[bool; NODES], i: u32) -> Option<u32>
        requires { from + length self.now ≤ 2 ^ 32 }
        ensures { result ≡ slice_get (numbers_of (goes_up up.now) from self.now) i }
    {
        match &self.branch {
            Branch::Page(packets) => nth_of_page(packets, from, up, i),
            Branch::Fork(left, right) => {
                let before = left.count(up);
                if i < before {
                    left.nth(from, up, i)
                } else {
                    right.nth(from + left.len(), up, i - before)
                }
            }
        }
    }

    /// One packet more, in flight to this node. An `Err` changes nothing.
    pub fn push(&mut self, alloc: Global, to: Node) -> Result<(), AllocError>
        requires node { to < MAX_NODES }
        requires room { length self.old < 2 ^ 32 - 1 }
        ensures ok { OnOk result (self.new ≡ self.old ++ Some to ∷ []) }
        ensures err { OnErr result (self.new ≡ self.old) }
    {
        match &mut self.branch {
            Branch::Page(packets) if packets.len() < PAGE => packets.push(Some(to))?,
            Branch::Fork(left, right) if right.len() < left.len() => right.push(alloc, to)?,
            _ => return self.grow(alloc, to),
        }
        self.len += 1;
        self.counts[to.index() as usize] += 1;
        Ok(())
    }

    // One packet more, on a page of its own beside all packets so far. It first takes all the memory.
    fn grow(&mut self, alloc: Global, to: Node) -> Result<(), AllocError>
        requires node { to < MAX_NODES }
        requires room { length self.old < 2 ^ 32 - 1 }
        ensures ok { OnOk result (self.new ≡ self.old ++ Some to ∷ []) }
        ensures err { OnErr result (self.new ≡ self.old) }
    {
        let mut left = Box::new(alloc, Tree::page(alloc, to)?)?;
        let right = Box::new(alloc, Tree::page(alloc, to)?)?;
        mem::swap(&mut *left, self);
        let mut counts = left.counts;
        counts[to.index() as usize] += 1;
        let fork = Tree {
            len: left.len() + 1,
            counts,
            branch: Branch::Fork(left, right),
        };
        *self = fork;
        Ok(())
    }

    /// No copy of packet `k` of its packets is in flight any more. It gives the node that the packet was in flight to.
    pub fn gone(&mut self, k: u32) -> Option<Node>
        requires { k < length self.old }
        ensures gone { self.new ≡ slice_set self.old k None }
        ensures destination { result ≡ get_or self.old k None }
    {
        match &mut self.branch {
            Branch::Page(packets) => {
                let before = mem::replace(&mut packets[k as usize], None);
                uncount(&mut self.counts, before)
            }
            Branch::Fork(left, right) => {
                if k < left.len() {
                    uncount(&mut self.counts, left.gone(k))
                } else {
                    let within = k - left.len();
                    uncount(&mut self.counts, right.gone(within))
                }
            }
        }
    }
}

impl Tree {
    /// Packet `k` of its packets, of which no copy was in flight, is in flight to this node.
    pub fn back(&mut self, k: u32, to: Node)
        requires place { k < length self.old }
        requires none { get_or self.old k None ≡ None }
        requires node { to < MAX_NODES }
        ensures { self.new ≡ slice_set self.old k (Some to) }
    {
        self.counts[to.index() as usize] += 1;
        match &mut self.branch {
            Branch::Page(packets) => packets[k as usize] = Some(to),
            Branch::Fork(left, right) => {
                if k < left.len() {
                    left.back(k, to);
                } else {
                    let within = k - left.len();
                    right.back(within, to);
                }
            }
        }
    }
}

// Counts a packet that was in flight, if it was, as one that is not. It gives the packet back.
fn uncount(counts: &mut [u32; NODES], packet: Option<Node>) -> Option<Node>
    requires { (d : ℕ) → packet ≡ Some d → (d < MAX_NODES) × (0 < get_or counts.old d 0) }
    ensures counts { (ps : List (Option ℕ)) (n k : ℕ) → IsCounted ps n counts.old → k < length ps → get_or ps k None ≡ packet
        → IsCounted (slice_set ps k None) n counts.new }
    ensures packet { result ≡ packet }
{
    if let Some(to) = packet {
        counts[to.index() as usize] -= 1;
    }
    packet
}

// The same of the packets of a page.
fn nth_of_page(packets: &[Option<Node>], from: u32, up: &[bool; NODES], i: u32) -> Option<u32>
    requires { from + length packets.now ≤ 2 ^ 32 }
    ensures { result ≡ slice_get (numbers_of (goes_up up.now) from packets.now) i }
{
    let mut left = i;
    for (k, packet) in packets.iter().enumerate() {
        if goes_up(packet, up) {
            if left == 0 {
                return Some(from + k as u32);
            }
            left -= 1;
        }
    }
    None
}

// Whether a copy of the packet is in flight to a node that is up.
fn goes_up(packet: &Option<Node>, up: &[bool; NODES]) -> bool
    ensures { result ≡ goes_up up.now packet.now }
{
    match packet {
        Some(to) => up.get(to.index() as usize).copied().unwrap_or(false),
        None => false,
    }
}
