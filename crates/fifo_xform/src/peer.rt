ghost use Rattle.std.specs.Prelude.{◌≡◌, ◌+◌, ◌<◌, ◌^◌, IfNone, IfSome, OnErr, OnOk, is_some, nat_eq};
ghost use Rattle.fifo_xform.specs.Peers.{counts, held_next, holds, is_early, new_peer, passes};

use indexmap::IndexMap;
use std::alloc::{AllocError, Global};
use std::marker::Model;

/// What a node keeps of another: the number of the next packet that goes there, the number that it expects next from there, and
/// the hold-back queue: the contents that came from there early, by number.
#[derive(Drop)]
pub struct Peer<M> {
    next: u64,
    expected: u64,
    held: IndexMap<u64, M>,
}

impl<M> Model for Peer<M> {
    ghost use Rattle.std.specs.FinMap as map;
    ghost use Rattle.fifo_xform.specs.Peers.{Peer as Kept, peer_code};

    ghost Value = { Kept M };

    ghost coded = { peer_code M.code };

    ghost view = { λ p. record { next = p.next; expected = p.expected; held = map.from_entries p.held.entries } };
}

#[tactic(auto, using(crate::proofs::Views::views))]
impl<M: Drop> Peer<M> {
    /// Nothing went there, and nothing came from there. It takes no memory.
    pub fn new(alloc: Global) -> Self
        ensures { result ≡ new_peer }
    {
        Peer {
            next: 0,
            expected: 0,
            held: IndexMap::new(alloc),
        }
    }

    /// Gives out the number of the next packet that goes there.
    pub fn count(&mut self) -> u64
        requires { self.old.next + 1 < 2 ^ 64 }
        ensures number { result ≡ self.old.next }
        ensures counted { self.new ≡ counts self.old }
    {
        let number = self.next;
        self.next += 1;
        number
    }

    /// Whether this is the number that is expected next.
    pub fn expects(&self, number: u64) -> bool
        ensures { result ≡ nat_eq number self.now.expected }
    {
        number == self.expected
    }

    /// The number that is expected next.
    pub fn expected(&self) -> u64
        ensures { result ≡ self.now.expected }
    {
        self.expected
    }

    /// Whether something is held under the expected number: a hash look-up.
    pub fn is_ready(&self) -> bool
        ensures { result ≡ is_some (held_next self.now) }
    {
        self.held.get(&self.expected).is_some()
    }

    /// Whether the number is above the expected one, and nothing is held under it: a comparison and a hash look-up.
    pub fn is_early(&self, number: u64) -> bool
        ensures { result ≡ is_early self.now number }
    {
        self.expected < number && self.held.get(&number).is_none()
    }

    /// Holds a content under its number. An `Err` changes nothing.
    pub fn hold(&mut self, number: u64, content: M) -> Result<(), AllocError>
        ensures ok { OnOk result (self.new ≡ holds self.old number content) }
        ensures err { OnErr result (self.new ≡ self.old) }
    {
        self.held.insert(number, content)?;
        Ok(())
    }

    /// Passes the expected number, and answers what was held under it.
    pub fn pass(&mut self) -> Option<M>
        requires { self.old.expected + 1 < 2 ^ 64 }
        ensures held { result ≡ held_next self.old }
        ensures passed { self.new ≡ passes self.old }
    {
        let held = self.held.swap_remove(&self.expected);
        self.expected += 1;
        held
    }

    /// Passes the expected number where something is held under it, and answers that. Else nothing changes.
    pub fn pass_held(&mut self) -> Option<M>
        requires { self.old.expected + 1 < 2 ^ 64 }
        ensures held { result ≡ held_next self.old }
        ensures passed { IfSome result (λ _. self.new ≡ passes self.old) }
        ensures unchanged { IfNone result (self.new ≡ self.old) }
    {
        if self.held.get(&self.expected).is_none() {
            return None;
        }
        self.pass()
    }
}
