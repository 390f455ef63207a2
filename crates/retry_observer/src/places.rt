ghost use Rattle.std.specs.Prelude.{◌≡◌, ℕ, ◌+◌, ◌<◌, ◌^◌, List, [], ◌∷◌, ◌++◌, Option, length, OnOk};
ghost use Rattle.retry_observer.specs.Places.{Comes, Follows, IsKnown, IsNew, carried_at, named};
ghost use Rattle.retry_xform.specs.Image.{place_of};

use observer_parts::PacketLists;
use std::alloc::{AllocError, Global};
use std::marker::Model;
use vst_base::Node;

/// What the packets of retrying handlers carry: packets of the run within, each by its place there in the order of sending, from 0 on.
/// There are fewer than 2^32 packets.
#[derive(Drop)]
pub struct Places {
    // What each packet carries.
    carried: Vec<Option<u32>>,
    // The packets of the run within of each node, by their numbers.
    lists: PacketLists,
    // How many packets of the run within there are.
    count: u32,
}

impl Model for Places {
    ghost use Rattle.std.specs.Prelude.{◌<◌, ◌≤◌, ◌^◌, length};
    ghost use Rattle.retry_observer.specs.Places.{PlacesView};

    ghost Value = { PlacesView };

    ghost view = { λ p. record { carried = p.carried.items; lists = p.lists; count = p.count } };

    ghost invariant = { λ p. (p.count ≤ length p.carried.items) × (length p.carried.items < 2 ^ 32) };
}

impl Places {
    /// No packets yet. It takes no memory.
    pub fn new(alloc: Global) -> Self
        ensures { Follows result [] }
    {
        Places {
            carried: Vec::new(alloc),
            lists: PacketLists::new(alloc),
            count: 0,
        }
    }

    /// How many packets were added.
    pub fn len(&self) -> u32
        ensures { result ≡ length self.now.carried }
    {
        self.carried.len() as u32
    }

    /// Adds new data of this source: it carries the next packet of the run within. After an `Err` they are given up.
    pub fn push_new(&mut self, alloc: Global, source: Node) -> Result<(), AllocError>
        requires { length self.old.carried + 1 < 2 ^ 32 }
        ensures follows { OnOk result ((bs : List (ℕ × Option ℕ)) (o : Option ℕ) → Follows self.old bs → IsNew bs source o
            → Follows self.new (bs ++ (source, o) ∷ [])) }
        ensures len { OnOk result (length self.new.carried ≡ length self.old.carried + 1) }
    {
        let count = self.count;
        let node = usize::from(source.index());
        self.lists.push(alloc, node, count)?;
        self.carried.push(Some(count))?;
        self.count = count + 1;
        Ok(())
    }

    /// Adds a packet that bears no new name, and carries this. After an `Err` they are given up.
    pub fn push_known(&mut self, carried: Option<u32>) -> Result<(), AllocError>
        requires { length self.old.carried + 1 < 2 ^ 32 }
        ensures follows { OnOk result ((bs : List (ℕ × Option ℕ)) (n : ℕ) (o : Option ℕ) → Follows self.old bs → IsKnown carried bs n o
            → Follows self.new (bs ++ (n, o) ∷ [])) }
        ensures len { OnOk result (length self.new.carried ≡ length self.old.carried + 1) }
    {
        self.carried.push(carried)?;
        Ok(())
    }

    /// What packet `k` carries; `None` for an acknowledgement, and where there is no packet `k`.
    pub fn carried(&self, k: u32) -> Option<u32>
        ensures { (bs : List (ℕ × Option ℕ)) → Follows self.now bs → result ≡ carried_at bs k }
    {
        match self.carried.get(k as usize) {
            Some(carried) => *carried,
            None => None,
        }
    }

    /// The packet of the run within that the node sent with this number; `None` where there is none.
    pub fn place_with(&self, node: Node, number: u64) -> Option<u32>
        ensures { (bs : List (ℕ × Option ℕ)) → Follows self.now bs → result ≡ place_of (node, number) (named bs) }
    {
        self.lists.get(usize::from(node.index()), number as usize)
    }
}
