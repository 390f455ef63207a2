ghost use Rattle.std.specs.Prelude.{◌≡◌, ℕ, ◌<◌, IfOk};
ghost use Rattle.handler_trait.specs.Handling.{Recovery};

use crate::Handlers;
use std::alloc::{AllocError, Global};
use vst_base::Node;

/// Handlers whose nodes stop and start again. What a node keeps outlives it, and all else of its
/// state is lost.
pub trait Rebootable: Handlers {
    type Kept: Drop;

    /// How a node stops and starts again, as functions.
    ghost recovery: { Self → Recovery Self.State Self.Kept };

    /// What each kept value keeps to, so that a node can start from it.
    ghost fits: { Self → Self.Kept → Type 0 };

    /// What a node that stops in this state keeps.
    fn keep(&self, alloc: Global, state: &Self::State) -> Result<Self::Kept, AllocError>
        requires sound { (node : ℕ) × (node < (Self.meaning self.now).nodes) × Self.sound self.now node state.now }
        ensures keeps { IfOk result (λ kept. kept ≡ (recovery self.now).keep state.now) }
        ensures fits { IfOk result (λ kept. fits self.now kept) };

    /// The state in which the node starts again from what it kept.
    fn reboot(&self, alloc: Global, node: Node, kept: Self::Kept) -> Result<Self::State, AllocError>
        requires node { node < (Self.meaning self.now).nodes }
        requires fits { fits self.now kept }
        ensures reboots { IfOk result (λ state. state ≡ (recovery self.now).reboot node kept) }
        ensures sound { IfOk result (λ state. Self.sound self.now node state) };

    /// Nothing is spent after a reboot.
    ghost rebooted_fresh: { (h : Self) (n : ℕ) (k : Self.Kept) → n < (Self.meaning h).nodes → fits h k
        → Self.spent h ((recovery h).reboot n k) ≡ 0 };
}
