ghost use Rattle.std.specs.Prelude.{◌≡◌, ℕ, ◌<◌, length, Some, None, is_none, IfOk, slice_get};
ghost use Rattle.net_semantics.specs.Worlds.{change_at};
ghost use Rattle.net_semantics.specs.ShownFail.{kept_at};

use std::alloc::{AllocError, Global};
use std::marker::Model;
use vst_base::Node;

/// What each node that is down has kept, by node. A node that is up has kept nothing.
#[derive(Drop)]
pub struct Stopped<K> {
    items: Vec<Option<K>>,
}

impl<K> Model for Stopped<K> {
    ghost use Rattle.std.specs.Prelude.{List, Option};

    ghost Value = { List (Option K) };

    ghost view = { λ s. s.items.items };
}

impl<K: Drop> Stopped<K> {
    /// Every node of so many is up.
    pub fn new(alloc: Global, nodes: u8) -> Result<Self, AllocError>
        ensures nodes { IfOk result (λ stopped. length stopped ≡ nodes) }
        ensures up { IfOk result (λ stopped. (n : ℕ) → kept_at (slice_get stopped n) ≡ None) }
    {
        let mut items = Vec::new(alloc);
        for _ in 0..nodes {
            items.push(None)?;
        }
        Ok(Stopped { items })
    }

    /// Whether node `n` is up, as one that does not exist is.
    pub fn is_up(&self, n: Node) -> bool
        ensures { result ≡ is_none (kept_at (slice_get self.now n)) }
    {
        match self.items.get(usize::from(n.index())) {
            Some(kept) => kept.is_none(),
            None => true,
        }
    }

    /// Node `n` is down from now on, and has kept this.
    pub fn stop(&mut self, n: Node, kept: K)
        requires { n < length self.old }
        ensures { self.new ≡ change_at (λ _. Some kept) n self.old }
    {
        self.items[usize::from(n.index())] = Some(kept);
    }

    /// Node `n` is up from now on. What it had kept, if it was down, is moved out.
    pub fn start(&mut self, n: Node) -> Option<K>
        requires { n < length self.old }
        ensures kept { result ≡ kept_at (slice_get self.old n) }
        ensures up { self.new ≡ change_at (λ _. None) n self.old }
    {
        self.items[usize::from(n.index())].take()
    }
}
