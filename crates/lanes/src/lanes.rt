ghost use Rattle.std.specs.Prelude.{◌≡◌, ℕ, ◌+◌, ◌^◌, ◌<◌, List, [], ◌∷◌, ◌++◌, length, OnOk, OnErr};
ghost use Rattle.lanes.specs.Lanes.{Follows, lane, previous_of};

use indexmap::IndexMap;
use std::alloc::{AllocError, Global};
use std::marker::Model;
use vst_base::Node;

/// Packets in the order of sending, each with the one before it on its lane: of the same source and destination.
#[derive(Drop)]
pub struct Lanes {
    // The last packet of each lane.
    lasts: IndexMap<u16, usize>,
    // The packet before each packet on its lane.
    previous: Vec<Option<usize>>,
}

impl Model for Lanes {
    ghost use Rattle.std.specs.FinMap as map;
    ghost use Rattle.lanes.specs.Lanes.{LanesView, lanes_code};

    ghost Value = { LanesView };

    ghost coded = { lanes_code };

    ghost view = { λ l. record { lasts = map.from_entries l.lasts.entries; previous = l.previous.items } };
}

impl Lanes {
    /// No packets yet. It takes no memory.
    pub fn new(alloc: Global) -> Self
        ensures { Follows result [] }
    {
        Lanes {
            lasts: IndexMap::new(alloc),
            previous: Vec::new(alloc),
        }
    }

    /// How many packets were added.
    pub fn len(&self) -> usize
        ensures { result ≡ length self.now.previous }
    {
        self.previous.len()
    }

    /// Adds a packet with these ends. After an `Err` nothing changed.
    pub fn push(&mut self, source: Node, destination: Node) -> Result<(), AllocError>
        ensures ok { OnOk result ((es : List (ℕ × ℕ)) → Follows self.old es → Follows self.new (es ++ (source, destination) ∷ [])) }
        ensures len { OnOk result (length self.new.previous ≡ length self.old.previous + 1) }
        ensures err { OnErr result (self.new ≡ self.old) }
    {
        let k = self.previous.len();
        let way = lane(source.index(), destination.index());
        self.previous.reserve(1)?;
        let before = self.lasts.insert(way, k)?;
        self.previous.push(before)?;
        Ok(())
    }

    /// The packet before packet `k` on its lane; `None` where there is none, or no packet `k`.
    pub fn previous(&self, k: usize) -> Option<usize>
        ensures { (es : List (ℕ × ℕ)) → Follows self.now es → result ≡ previous_of es k }
    {
        match self.previous.get(k) {
            Some(before) => *before,
            None => None,
        }
    }
}

// The number of the lane from one node to the other.
fn lane(source: u8, destination: u8) -> u16
    ensures { result ≡ lane source destination }
{
    256 * u16::from(source) + u16::from(destination)
}
