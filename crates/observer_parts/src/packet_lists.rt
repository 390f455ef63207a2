ghost use Rattle.std.specs.Prelude.{◌≡◌, ◌≢◌, ◌<◌, ℕ, [], ◌∷◌, ◌++◌, length, map, slice_get, OnOk};
ghost use Rattle.observer_parts.specs.PacketLists.{list_at};

use std::alloc::{AllocError, Global};
use std::marker::Model;

/// Packets in lists, each list by a number, and each packet by its place in its list, from 0 on. A list that nothing was added to is
/// empty.
#[derive(Drop)]
pub struct PacketLists {
    lists: Vec<Vec<u32>>,
}

impl Model for PacketLists {
    ghost use Rattle.std.specs.Prelude.{List, ℕ, map};

    ghost Value = { List (List ℕ) };

    ghost view = { λ p. map (λ l. l.items) p.lists.items };
}

// Makes the list with this number, and those before it, empty where there was none.
fn reach(alloc: Global, lists: &mut Vec<Vec<u32>>, list: usize) -> Result<(), AllocError>
    ensures there { OnOk result (list < length lists.new.items) }
    ensures same { OnOk result ((j : ℕ) → list_at (map (λ l. l.items) lists.new.items) j ≡ list_at (map (λ l. l.items) lists.old.items) j) }
{
    while lists.len() <= list {
        lists.push(Vec::new(alloc))?;
    }
    Ok(())
}

impl PacketLists {
    /// No packets yet. It takes no memory.
    pub fn new(alloc: Global) -> Self
        ensures { result ≡ [] }
    {
        PacketLists {
            lists: Vec::new(alloc),
        }
    }

    /// How many packets a list has.
    pub fn len_of(&self, list: usize) -> usize
        ensures { result ≡ length (list_at self.now list) }
    {
        match self.lists.get(list) {
            Some(packets) => packets.len(),
            None => 0,
        }
    }

    /// Adds a packet to a list. After an `Err` they are given up.
    pub fn push(&mut self, alloc: Global, list: usize, packet: u32) -> Result<(), AllocError>
        ensures there { OnOk result (list_at self.new list ≡ list_at self.old list ++ packet ∷ []) }
        ensures others { OnOk result ((j : ℕ) → j ≢ list → list_at self.new j ≡ list_at self.old j) }
    {
        reach(alloc, &mut self.lists, list)?;
        self.lists[list].push(packet)?;
        Ok(())
    }

    /// The packet at this place of a list; `None` where there is none.
    pub fn get(&self, list: usize, place: usize) -> Option<u32>
        ensures { result ≡ slice_get (list_at self.now list) place }
    {
        self.lists.get(list)?.get(place).copied()
    }
}
