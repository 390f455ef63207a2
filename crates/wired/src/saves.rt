ghost use Rattle.std.specs.Prelude.{◌≡◌, ℕ, ◌<◌, List, Some, IfOk, OnOk};
ghost use Rattle.vst_base.specs.declared.stack.StackId.{StackId};
ghost use Rattle.wired.specs.Saving.{ReadsBack, Saving};

use crate::Cluster;
use handler_trait::Rebootable;
use std::alloc::{AllocError, Global};
use vst_base::Node;

/// Handlers whose nodes can write what they keep as bytes, and find it in them.
pub trait Saves: Rebootable {
    /// How what a node keeps stands in bytes, in a cluster of this stack and name.
    ghost saving: { Self → StackId → List ℕ → Saving Self.Kept };

    /// The bytes of what a node that stops in this state keeps.
    fn save(
        &self,
        alloc: Global,
        cluster: &Cluster,
        node: Node,
        state: &Self::State,
    ) -> Result<Vec<u8>, AllocError>
        requires node { node < (Self.meaning self.now).nodes }
        requires sound { Self.sound self.now node state.now }
        ensures spelled { IfOk result (λ bytes. bytes.items
            ≡ (saving self.now cluster.now.stack cluster.now.name).spell node ((Self.recovery self.now).keep state.now)) }
        ensures fits { OnOk result ((saving self.now cluster.now.stack cluster.now.name).Fits node
            ((Self.recovery self.now).keep state.now)) };

    /// What the bytes say that the node kept. `None` comes exactly where they are none of its own.
    fn restore(
        &self,
        alloc: Global,
        cluster: &Cluster,
        node: Node,
        bytes: &[u8],
    ) -> Result<Option<Self::Kept>, AllocError>
        ensures { IfOk result (λ kept. kept ≡ (saving self.now cluster.now.stack cluster.now.name).read node bytes.now) };

    /// What is saved is found again.
    ghost reads_back: { (h : Self) (stack : StackId) (name : List ℕ) → ReadsBack (saving h stack name) };

    /// A node can start from what is found.
    ghost found_fits: { (h : Self) (stack : StackId) (name : List ℕ) (n : ℕ) (bytes : List ℕ) (k : Self.Kept)
        → (saving h stack name).read n bytes ≡ Some k → Self.fits h k };
}
