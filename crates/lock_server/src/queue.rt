ghost use Rattle.std.specs.Prelude.{◌≡◌, [], ◌∷◌, ◌++◌, IsTrue, ◌↔◌, OnOk, OnErr, drop, slice_get};

use std::alloc::{AllocError, Global};
use std::collections::VecDeque;
use std::marker::Model;
use vst_base::Node;

/// The clients that asked for the lock, in the order of asking. The first holds it.
#[derive(Debug, Drop)]
pub struct Queue {
    clients: VecDeque<Node>,
}

impl Model for Queue {
    ghost use Rattle.std.specs.Prelude.{ℕ, List};

    ghost Value = { List ℕ };

    ghost view = { λ q. q.clients.items };
}

impl Queue {
    /// No clients. It takes no memory.
    pub fn new(alloc: Global) -> Self
        ensures { result ≡ [] }
    {
        Queue {
            clients: VecDeque::new(alloc),
        }
    }

    /// Whether nobody holds the lock.
    pub fn is_empty(&self) -> bool
        ensures { IsTrue result ↔ (self.now ≡ []) }
    {
        self.clients.is_empty()
    }

    /// The client that holds the lock.
    pub fn head(&self) -> Option<Node>
        ensures { result ≡ slice_get self.now 0 }
    {
        self.clients.front().copied()
    }

    /// A client joins at the end.
    pub fn join(&mut self, client: Node) -> Result<(), AllocError>
        ensures ok { OnOk result (self.new ≡ self.old ++ client ∷ []) }
        ensures err { OnErr result (self.new ≡ self.old) }
    {
        self.clients.push_back(client)?;
        Ok(())
    }

    /// The first leaves, if there is one.
    pub fn leave(&mut self)
        ensures { self.new ≡ drop 1 self.old }
    {
        self.clients.pop_front();
    }
}
