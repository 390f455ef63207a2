ghost use Rattle.std.specs.Prelude.{◌≡◌, ◌≢◌, [], ◌∷◌, ◌++◌, option_map, slice_get, nat_eq, ◌↔◌, IfOk, IsTrue, OnErr, OnOk};
ghost use Rattle.std.specs.Map.{lookup};
ghost use Rattle.lists.specs.Each.{Each};
ghost use Rattle.lru.specs.LruCache.{last_entry};
ghost use Rattle.retry_xform.specs.Keeping.{acknowledged, rotated};
ghost use Rattle.retry_xform.specs.KeptEntries.{goes_to, shown};

use lru::LruCache;
use std::alloc::{AllocError, Global};
use std::marker::Model;
use vst_base::Node;

/// The packets that a node sent and that were not acknowledged, in the order in which they are sent again. Contracts see the list.
#[derive(Drop)]
pub struct KeptPackets<M> {
    // Destination and content by number, the one that is sent again next last in the order of use.
    by_number: LruCache<u64, (Node, M)>,
}

impl<M> Model for KeptPackets<M> {
    ghost use Rattle.std.specs.Prelude.{◌≡◌, ◌-◌, ◌^◌, List};
    ghost use Rattle.std.specs.Coded.{coded_list};
    ghost use Rattle.retry_xform.specs.Keeping.{Kept, kept_code};
    ghost use Rattle.retry_xform.specs.KeptEntries.{all_kept};

    ghost Value = { List (Kept M) };

    ghost coded = { coded_list (kept_code M.code) };

    ghost view = { λ k. all_kept k.by_number.entries };

    ghost invariant = { λ k. k.by_number.cap ≡ 2 ^ 64 - 1 };
}

impl<M: Drop> KeptPackets<M> {
    /// Nothing is kept yet.
    pub fn new(alloc: Global) -> Result<Self, AllocError>
        ensures { IfOk result (λ kept. kept ≡ []) }
    {
        Ok(KeptPackets {
            by_number: LruCache::unbounded(alloc)?,
        })
    }

    /// Whether none is kept.
    pub fn is_empty(&self) -> bool
        ensures { IsTrue result ↔ self.now ≡ [] }
    {
        self.by_number.is_empty()
    }

    /// Keeps a packet, after all that are kept. An `Err` comes when memory runs out: then nothing changed.
    pub fn add(&mut self, number: u64, to: Node, content: M) -> Result<(), AllocError>
        requires unused { Each (λ k. k.number ≢ number) self.old }
        ensures added { OnOk result (self.new ≡ self.old ++ record { number = number; destination = to; content = content } ∷ []) }
        ensures unchanged { OnErr result (self.new ≡ self.old) }
    {
        let _count = self.by_number.len();
        self.by_number.put(number, (to, content))?;
        Ok(())
    }

    /// Drops the packet with this number if this node is its destination. All others stay, in their order.
    pub fn acknowledge(&mut self, from: Node, number: u64)
        ensures { self.new ≡ acknowledged from number self.old }
    {
        let _count = self.by_number.len();
        if is_meant(&self.by_number, from, number) {
            self.by_number.pop(&number);
        }
    }

    /// The packet that is sent again next: its number, its destination and its content.
    pub fn first(&self) -> Option<(u64, Node, &M)>
        ensures { option_map (shown {M = M}) result ≡ slice_get self.now 0 }
    {
        match self.by_number.peek_lru() {
            Some((number, (to, content))) => Some((*number, *to, content)),
            None => None,
        }
    }

    /// The first packet goes to the end.
    pub fn rotate(&mut self)
        ensures { self.new ≡ rotated self.old }
    {
        let _count = self.by_number.len();
        if let Some(number) = oldest(&self.by_number) {
            self.by_number.promote(&number);
        }
    }
}

// The number that was used the longest time ago.
fn oldest<M>(packets: &LruCache<u64, (Node, M)>) -> Option<u64>
    ensures { result ≡ option_map (λ e. e.0) (last_entry packets.now.entries) }
{
    match packets.peek_lru() {
        Some((number, _)) => Some(*number),
        None => None,
    }
}

// Whether the packet with this number, if there is one, goes to the node.
fn is_meant<M>(packets: &LruCache<u64, (Node, M)>, from: Node, number: u64) -> bool
    ensures { result ≡ goes_to from (lookup (nat_eq number) packets.now.entries) }
{
    match packets.peek(&number) {
        Some((to, _)) => *to == from,
        None => false,
    }
}
