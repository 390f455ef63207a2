ghost use Rattle.std.specs.Prelude.{◌≡◌, ℕ, ◌+◌, ◌<◌, ◌^◌, List, [], ◌∷◌, ◌++◌, length, is_some, Some, IfOk, IfErr, OnOk, OnErr, MatchBool, slice_get};
ghost use Rattle.std.specs.Prelude.{vec_capacity, vec_len};
ghost use Rattle.net_semantics.specs.Worlds.{change_at};
ghost use Rattle.lanes.specs.Lanes.{Follows};
ghost use Rattle.net_semantics.specs.Order.{IsAhead, IsFirst, IsInOrder, LanesFollow, all_ends};
ghost use Rattle.net_semantics.specs.Held.{held_sent, held_more, held_less, held_copies, held_ends, held_count};

use lanes::Lanes;
use slab::Slab;
use std::alloc::{AllocError, Global};
use std::marker::Model;
use vst_base::{Node, StepRefusal};

/// A packet that was sent. While a copy of it is in flight, its content stands at `place` among the contents.
#[derive(Drop)]
struct Sent {
    source: Node,
    destination: Node,
    copies: u32,
    place: usize,
}

/// A packet in flight: its ends, and its content.
#[derive(Drop)]
pub struct Parcel<'a, M> {
    pub source: Node,
    pub destination: Node,
    pub content: &'a M,
}

/// Every packet that was sent, in the order of sending. Only those in flight have a content, and the contents
/// stand apart.
#[derive(Drop)]
pub struct Packets<M> {
    items: Vec<Sent>,
    contents: Slab<M>,
}

impl<M> Model for Packets<M> {
    ghost use Rattle.std.specs.Prelude.{List};
    ghost use Rattle.net_semantics.specs.Shown.{Shown};

    ghost Value = { List (Shown M) };

    ghost use Rattle.net_semantics.specs.Kept.{shown_all, IsKept};

    ghost view = { λ p. shown_all p.contents p.items.items };

    ghost invariant = { λ p. IsKept p.items.items p.contents };
}

impl<M: Drop> Packets<M> {
    /// No packet was sent. It takes no memory.
    pub fn new(alloc: Global) -> Self
        ensures { result ≡ [] }
    {
        Packets {
            items: Vec::new(alloc),
            contents: Slab::new(alloc),
        }
    }

    /// How many were sent.
    pub fn len(&self) -> usize
        ensures { result ≡ length self.now }
    {
        self.items.len()
    }

    /// How many have a copy in flight.
    pub fn held(&self) -> usize
        ensures { result ≡ held_count self.now }
    {
        self.contents.len()
    }

    /// How many copies of packet `k` are in flight, none of one that was never sent.
    pub fn copies(&self, k: u32) -> u32
        ensures { result ≡ held_copies (slice_get self.now k) }
    {
        match self.items.get(k as usize) {
            Some(sent) => sent.copies,
            None => 0,
        }
    }

    /// The source and the destination of packet `k`, and `None` where it was never sent.
    pub fn ends(&self, k: u32) -> Option<(Node, Node)>
        ensures { result ≡ held_ends (slice_get self.now k) }
    {
        match self.items.get(k as usize) {
            Some(sent) => Some((sent.source, sent.destination)),
            None => None,
        }
    }

    /// The place of packet `k`, of which a copy has to be in flight.
    pub fn in_flight(&self, k: u32) -> Result<usize, StepRefusal>
        ensures ok { IfOk result (λ place. (place ≡ k) × (0 < held_copies (slice_get self.now k))) }
        ensures err { IfErr result (λ why. (why ≡ StepRefusal.NoCopy) × (held_copies (slice_get self.now k) ≡ 0)) }
    {
        if self.copies(k) == 0 {
            return Err(StepRefusal::NoCopy);
        }
        Ok(k as usize)
    }

    /// Packet `k`, of which a copy is in flight.
    pub fn at(&self, k: usize) -> Parcel<'_, M>
        requires { 0 < held_copies (slice_get self.now k) }
        ensures { slice_get self.now k ≡ Some (record {
          source = result.source;
          destination = result.destination;
          copies = held_copies (slice_get self.now k);
          content = Some result.content.now;
        }) }
    {
        let sent = &self.items[k];
        Parcel {
            source: sent.source,
            destination: sent.destination,
            content: &self.contents[sent.place],
        }
    }

    /// One more copy of packet `k` is in flight. It takes no memory.
    pub fn add_copy(&mut self, k: usize)
        requires copy { 0 < held_copies (slice_get self.old k) }
        requires fits { held_copies (slice_get self.old k) + 1 < 2 ^ 32 }
        ensures { self.new ≡ change_at held_more k self.old }
    {
        let sent = &mut self.items[k];
        sent.copies += 1;
    }

    /// One copy less of packet `k` is in flight.
    pub fn take_copy(&mut self, k: usize)
        requires { 0 < held_copies (slice_get self.old k) }
        ensures { self.new ≡ change_at held_less k self.old }
    {
        let sent = &mut self.items[k];
        sent.copies -= 1;
        if sent.copies == 0 {
            let place = sent.place;
            self.contents.remove(place);
        }
    }

    /// Whether packet `k`, which was sent, is the first in flight on its lane. The lanes follow these packets, which are in order.
    pub fn is_first(&self, lanes: &Lanes, k: usize) -> bool
        requires follow { Follows lanes.now (all_ends self.now) }
        requires in_order { IsInOrder self.now }
        requires sent { k < length self.now }
        ensures { MatchBool result (IsFirst self.now k) ((j : ℕ) × IsAhead self.now j k) }
    {
        match lanes.previous(k) {
            Some(before) => self.items[before].copies == 0,
            None => true,
        }
    }

    /// Adds a packet with one copy in flight, and its ends to the lanes, where they are kept.
    pub fn send(
        &mut self,
        lanes: &mut Option<Lanes>,
        source: Node,
        destination: Node,
        content: M,
    ) -> Result<(), AllocError>
        ensures sent { OnOk result (self.new ≡ self.old ++ held_sent source (destination, content) ∷ []) }
        ensures kept { is_some lanes.new ≡ is_some lanes.old }
        ensures follow { LanesFollow lanes.old (all_ends self.old) → LanesFollow lanes.new (all_ends self.new) }
    {
        self.contents.reserve(1)?;
        self.items.reserve(1)?;
        push_ends(lanes, source, destination)?;
        let place = self.contents.vacant_key();
        let sent = Sent {
            source,
            destination,
            copies: 1,
            place,
        };
        push_in_room(&mut self.items, sent);
        self.contents.insert_reserved(content);
        Ok(())
    }
}

// Adds an item, for which there is room. It takes no memory.
fn push_in_room<T: Drop>(items: &mut Vec<T>, item: T)
    requires { vec_len items.old < vec_capacity items.old }
    ensures { items.new.items ≡ items.old.items ++ item ∷ [] }
{
    items.push(item).unwrap();
}

// Adds a packet's ends to the lanes, where they are kept. After an `Err` nothing changed.
fn push_ends(lanes: &mut Option<Lanes>, source: Node, destination: Node) -> Result<(), AllocError>
    ensures kept { is_some lanes.new ≡ is_some lanes.old }
    ensures ok { OnOk result ((es : List (ℕ × ℕ)) → LanesFollow lanes.old es
        → LanesFollow lanes.new (es ++ (source, destination) ∷ [])) }
    ensures err { OnErr result (lanes.new ≡ lanes.old) }
{
    match lanes {
        Some(lanes) => lanes.push(source, destination),
        None => Ok(()),
    }
}
