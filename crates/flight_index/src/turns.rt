ghost use Rattle.std.specs.Prelude.{◌≡◌, ◌+◌, ◌-◌, ◌*◌, ◌^◌, ◌<◌, [], ◌∷◌, ◌++◌, length, slice_get, slice_set, true, OnOk, OnErr};
ghost use Rattle.flight_index.specs.Turns.{firsts, is_first, queue_of};

use crate::index::FlightIndex;
use crate::queues::Queues;
use std::alloc::{AllocError, Global};
use std::marker::Model;
use vst_base::{MAX_NODES, Node};

/// The packets in flight of a network that keeps their order, and by rank those that are the first of their source and destination.
/// Contracts see a list with one place for each packet that was sent, in order: the packet's source and destination while a copy
/// is in flight, and nothing once none is. The time of each call grows with the logarithm of the number of packets.
#[derive(Drop)]
pub struct TurnIndex {
    packets: Vec<Option<(Node, Node)>>,
    // For each source and destination the packets in flight, in order.
    queues: Queues,
    // Of these the first.
    index: FlightIndex,
}

impl Model for TurnIndex {
    ghost use Rattle.std.specs.Prelude.{ℕ, List, Option};

    ghost Value = { List (Option (ℕ × ℕ)) };

    ghost view = { λ t. t.packets.items };

    ghost use Rattle.flight_index.specs.Turns.{IsQueued};

    ghost invariant = { λ t. IsQueued t.packets.items t.queues t.index };
}

// The number of the queue of these ends.
fn queue_of(source: Node, destination: Node) -> u16
    ensures { result ≡ queue_of source destination }
{
    u16::from(MAX_NODES) * u16::from(source.index()) + u16::from(destination.index())
}

impl TurnIndex {
    /// No packet yet. It takes no memory.
    pub fn new(alloc: Global) -> Self
        ensures { result ≡ [] }
    {
        TurnIndex {
            packets: Vec::new(alloc),
            queues: Queues::new(alloc),
            index: FlightIndex::new(alloc),
        }
    }

    /// A packet was sent from this source to this destination. An `Err` changes nothing.
    pub fn sent(&mut self, source: Node, destination: Node) -> Result<(), AllocError>
        requires node { destination < MAX_NODES }
        requires room { length self.old < 2 ^ 32 - 1 }
        ensures ok { OnOk result (self.new ≡ self.old ++ Some (source, destination) ∷ []) }
        ensures err { OnErr result (self.new ≡ self.old) }
    {
        self.packets.reserve(1)?;
        let k = self.packets.len() as u32;
        let queue = queue_of(source, destination);
        self.queues.join(queue, k)?;
        if let Err(error) = self.index.sent(destination) {
            self.queues.withdraw(queue);
            return Err(error);
        }
        if self.queues.first(queue) != Some(k) {
            self.index.gone(k);
        }
        self.packets.push(Some((source, destination)))?;
        Ok(())
    }

    /// No copy of packet `k`, the first of its source and destination, is in flight any more.
    pub fn gone(&mut self, k: u32)
        requires first { is_first self.old k ≡ true }
        ensures { self.new ≡ slice_set self.old k None }
    {
        let Some((source, destination)) = self.packets[k as usize] else {
            return;
        };
        let queue = queue_of(source, destination);
        self.packets[k as usize] = None;
        self.index.gone(k);
        self.queues.leave(queue);
        if let Some(next) = self.queues.first(queue) {
            self.index.back(next, destination);
        }
    }

    /// How many packets are the first of their source and destination.
    pub fn firsts(&self) -> u32
        ensures { result ≡ length (firsts self.now) }
    {
        self.index.in_flight()
    }

    /// The `i`-th of them, from 0, and `None` where there are no more than `i`.
    pub fn nth_first(&self, i: u32) -> Option<u32>
        ensures { result ≡ slice_get (firsts self.now) i }
    {
        self.index.nth_in_flight(i)
    }
}
