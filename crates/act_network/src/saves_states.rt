ghost use Rattle.std.specs.Prelude.{◌≡◌, ℕ, true, Some};
ghost use Rattle.act_network.specs.Disks.{Disks, Saves};

/// A way to keep the states of nodes on areas, so that a crash between any two acts leaves the old state or the new one.
pub trait SavesStates {
    type Kept;

    type Disk;

    type Act;

    type Left;

    /// The acts, what they do, and what a crash leaves.
    ghost disks: { Disks Self.Kept Self.Disk Self.Act Self.Left };

    /// The areas of a node are at rest, hold this state, and are as the node knows.
    ghost holds: { ℕ → Self.Kept → Self.Disk → Type 0 };

    /// The second state may be saved where the first is held.
    ghost can_save: { ℕ → Self.Kept → Self.Kept → Type 0 };

    /// What is at rest opens as what it holds.
    ghost rests: { (n : ℕ) (k : Self.Kept) (disk : Self.Disk) (left : Self.Left) → holds n k disk → disks.may_leave disk left ≡ true → disks.opens n left ≡ Some k };

    /// At each moment of a save the areas open as the old state or the new one, and in the end as the new one.
    ghost saves: { (n : ℕ) (old new : Self.Kept) (disk : Self.Disk) → holds n old disk → can_save n old new → Saves disks holds n old new disk };

    /// What was found is held after an opening.
    ghost reopens: { (n : ℕ) (k : Self.Kept) (left : Self.Left) → disks.opens n left ≡ Some k → holds n k (disks.reopened n left) };
}
