// Packets in queues.
ghost use Rattle.std.specs.Prelude.{◌≡◌, ℕ, ◌+◌, ◌<◌, ◌==◌, length, List, [], ◌∷◌, ◌++◌, drop, get_or, slice_get, OnOk, OnErr, if◌then◌else◌};

use std::alloc::{AllocError, Global};
use std::collections::VecDeque;
use std::marker::Model;

/// A queue of packets for each number. Contracts see the queues up to some number; each from there on is empty.
#[derive(Drop)]
pub struct Queues {
    alloc: Global,
    queues: Vec<VecDeque<u32>>,
}

impl Model for Queues {
    ghost use Rattle.std.specs.Prelude.{ℕ, List, map};

    ghost Value = { List (List ℕ) };

    ghost view = { λ q. map (λ d. d.items) q.queues.items };
}

impl Queues {
    /// Each is empty. It takes no memory.
    pub fn new(alloc: Global) -> Self
        ensures { result ≡ [] }
    {
        Queues {
            alloc,
            queues: Vec::new(alloc),
        }
    }

    /// A packet joins queue `n` at the end. After an `Err` each queue has what it had.
    pub fn join(&mut self, n: u16, k: u32) -> Result<(), AllocError>
        ensures ok { OnOk result ((i : ℕ) → get_or self.new i []
            ≡ (if i == n then get_or self.old n [] ++ k ∷ [] else get_or self.old i [])) }
        ensures err { OnErr result ((i : ℕ) → get_or self.new i [] ≡ get_or self.old i []) }
    {
        self.open(n)?;
        if let Some(queue) = self.queues.get_mut(usize::from(n)) {
            queue.push_back(k)?;
        }
        Ok(())
    }

    // There is a queue `n`.
    fn open(&mut self, n: u16) -> Result<(), AllocError>
        ensures same { (i : ℕ) → get_or self.new i [] ≡ get_or self.old i [] }
        ensures open { OnOk result (n < length self.new) }
    {
        for _ in self.queues.len()..usize::from(n) + 1 {
            self.queues.push(VecDeque::new(self.alloc))?;
        }
        Ok(())
    }

    /// The last packet of queue `n` leaves.
    pub fn withdraw(&mut self, n: u16)
        ensures { (q : List ℕ) (k i : ℕ) → get_or self.old n [] ≡ q ++ k ∷ []
            → get_or self.new i [] ≡ (if i == n then q else get_or self.old i []) }
    {
        if let Some(queue) = self.queues.get_mut(usize::from(n)) {
            queue.pop_back();
        }
    }

    /// The first packet of queue `n` leaves, if there is one.
    pub fn leave(&mut self, n: u16)
        ensures { (i : ℕ) → get_or self.new i [] ≡ (if i == n then drop 1 (get_or self.old n []) else get_or self.old i []) }
    {
        if let Some(queue) = self.queues.get_mut(usize::from(n)) {
            queue.pop_front();
        }
    }

    /// The first packet of queue `n`, if there is one.
    pub fn first(&self, n: u16) -> Option<u32>
        ensures { result ≡ slice_get (get_or self.now n []) 0 }
    {
        match self.queues.get(usize::from(n)) {
            Some(queue) => queue.front().copied(),
            None => None,
        }
    }
}
