ghost use Rattle.std.specs.Prelude.{◌≡◌, ℕ, ◌+◌, ◌<◌, ◌^◌, List, [], ◌∷◌, ◌++◌, length, OnOk};
ghost use Rattle.lanes.specs.Lanes.{lane};
ghost use Rattle.fifo_observer.specs.Channels.{Follows, number_of, packet_with};

use observer_parts::PacketLists;
use std::alloc::{AllocError, Global};
use std::marker::Model;
use vst_base::Node;

/// Packets by channel, the way from one node to another, in the order of sending: each has a number in its channel, from 0 on. There
/// are fewer than 2^32.
#[derive(Drop)]
pub struct Channels {
    // The packets of each channel, by the number of its lane.
    lists: PacketLists,
    // The number of each packet.
    numbers: Vec<u64>,
}

impl Model for Channels {
    ghost use Rattle.std.specs.Prelude.{◌<◌, ◌^◌, length};
    ghost use Rattle.fifo_observer.specs.Channels.{ChannelsView};

    ghost Value = { ChannelsView };

    ghost view = { λ c. record { lists = c.lists; numbers = c.numbers.items } };

    ghost invariant = { λ c. length c.numbers.items < 2 ^ 32 };
}

// The number of the lane from one node to the other.
fn lane(source: u8, destination: u8) -> usize
    ensures { result ≡ lane source destination }
{
    256 * usize::from(source) + usize::from(destination)
}

impl Channels {
    /// No packets yet. It takes no memory.
    pub fn new(alloc: Global) -> Self
        ensures { Follows result [] }
    {
        Channels {
            lists: PacketLists::new(alloc),
            numbers: Vec::new(alloc),
        }
    }

    /// How many packets were added.
    pub fn len(&self) -> u32
        ensures { result ≡ length self.now.numbers }
    {
        self.numbers.len() as u32
    }

    /// Adds a packet with these ends. After an `Err` they are given up.
    pub fn push(&mut self, alloc: Global, source: Node, destination: Node) -> Result<(), AllocError>
        requires { length self.old.numbers + 1 < 2 ^ 32 }
        ensures follows { OnOk result ((es : List (ℕ × ℕ)) → Follows self.old es → Follows self.new (es ++ (source, destination) ∷ [])) }
        ensures len { OnOk result (length self.new.numbers ≡ length self.old.numbers + 1) }
    {
        let packet = self.numbers.len() as u32;
        let lane = lane(source.index(), destination.index());
        let number = self.lists.len_of(lane) as u64;
        self.lists.push(alloc, lane, packet)?;
        self.numbers.push(number)?;
        Ok(())
    }

    /// The number of packet `k` in its channel; `None` where there is no packet `k`.
    pub fn number_of(&self, k: u32) -> Option<u64>
        ensures { (es : List (ℕ × ℕ)) → Follows self.now es → result ≡ number_of es k }
    {
        self.numbers.get(k as usize).copied()
    }

    /// The packet from one node to the other with this number; `None` where there is none.
    pub fn packet_with(&self, source: Node, destination: Node, number: u64) -> Option<u32>
        ensures { (es : List (ℕ × ℕ)) → Follows self.now es → result ≡ packet_with (source, destination) number es }
    {
        let lane = lane(source.index(), destination.index());
        self.lists.get(lane, number as usize)
    }
}
