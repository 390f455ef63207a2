ghost use Rattle.std.specs.Prelude.{◌≡◌, ℕ, ◌<◌, IfOk, IfSome, IsSome, OnOk};

use act_network::{LeavesByWord, SavesStates};
use handler_trait::Rebootable;
use std::alloc::{AllocError, Global};
use vst_base::Node;

/// What the nodes' disks do, in a network of single acts of these handlers. A state is saved without a copy of what is kept of it, and
/// an act changes a disk in place. After an `Err`, which is want of memory, the disk is given up.
pub trait SavesByActs<H: Rebootable>: SavesStates<Kept = H::Kept, Disk: Drop, Act: Drop, Left: Drop>
    + Drop {
    /// It is for these handlers.
    ghost serves: { Self → H → Type 0 };

    /// The disk of a node after an opening of empty areas.
    fn fresh(&self, alloc: Global, handlers: &H, node: Node) -> Result<Self::Disk, AllocError>
        requires serves { serves self.now handlers.now }
        requires node { node < (H.meaning handlers.now).nodes }
        ensures { IfOk result (λ disk. disk ≡ Self.disks.fresh node) };

    /// The acts that save what is kept of a state, in their order.
    fn acts(
        &self,
        alloc: Global,
        handlers: &H,
        disk: &Self::Disk,
        state: &H::State,
    ) -> Result<Vec<Self::Act>, AllocError>
        requires serves { serves self.now handlers.now }
        requires sound { (node : ℕ) × (node < (H.meaning handlers.now).nodes) × H.sound handlers.now node state.now }
        ensures { IfOk result (λ acts. acts.items ≡ Self.disks.acts disk.now ((H.recovery handlers.now).keep state.now)) };

    /// Does an act.
    fn make(&self, alloc: Global, disk: &mut Self::Disk, act: Self::Act) -> Result<(), AllocError>
        ensures { OnOk result (disk.new ≡ Self.disks.does act disk.old) };

    /// The node has saved what is kept of a state, and knows it.
    fn learn(
        &self,
        alloc: Global,
        handlers: &H,
        disk: &mut Self::Disk,
        state: &H::State,
    ) -> Result<(), AllocError>
        requires serves { serves self.now handlers.now }
        requires sound { (node : ℕ) × (node < (H.meaning handlers.now).nodes) × H.sound handlers.now node state.now }
        ensures { OnOk result (disk.new ≡ Self.disks.learns ((H.recovery handlers.now).keep state.now) disk.old) };

    /// Whether this is the held state, by what the node knows.
    fn is_held(&self, disk: &Self::Disk, kept: &H::Kept) -> bool
        ensures { result ≡ Self.disks.is_held disk.now kept.now };

    /// What a node finds in what is left of its areas, if that opens. A node can start from it.
    fn open(
        &self,
        alloc: Global,
        handlers: &H,
        node: Node,
        left: &Self::Left,
    ) -> Result<Option<H::Kept>, AllocError>
        requires serves { serves self.now handlers.now }
        requires node { node < (H.meaning handlers.now).nodes }
        ensures found { IfOk result (λ found. found ≡ Self.disks.opens node left.now) }
        ensures fits { IfOk result (λ found. IfSome found (H.fits handlers.now)) };

    /// The disk becomes the one after an opening of what is left, in which a state is found.
    fn reopen(
        &self,
        alloc: Global,
        handlers: &H,
        node: Node,
        disk: &mut Self::Disk,
        left: Self::Left,
    ) -> Result<(), AllocError>
        requires serves { serves self.now handlers.now }
        requires node { node < (H.meaning handlers.now).nodes }
        requires opens { IsSome (Self.disks.opens node left) }
        ensures { OnOk result (disk.new ≡ Self.disks.reopened node left) };
}

/// Disks of which a word says what a stop leaves.
pub trait LeavesByActs<H: Rebootable>: SavesByActs<H> + LeavesByWord<Word: Drop> {
    /// What the word leaves of a disk. It may be moved out of the disk, of which only what the node knows has to stay.
    fn leave(
        &self,
        alloc: Global,
        disk: &mut Self::Disk,
        word: &Self::Word,
    ) -> Result<Self::Left, AllocError>
        ensures left { IfOk result (λ left. left ≡ Self.by_word disk.old word.now) }
        ensures knows { (k : H.Kept) → Self.disks.is_held disk.new k ≡ Self.disks.is_held disk.old k };
}
