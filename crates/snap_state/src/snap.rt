ghost use Rattle.std.specs.Prelude.{◌≡◌, ◌≤◌, ◌+◌, ◌++◌, ℕ, OnErr, OnOk};
ghost use Rattle.lists.specs.Prefixes.{IsPrefix};
ghost use Rattle.raft_types.specs.declared.limits.TheConstants.{MAX_INDEX};
ghost use Rattle.wire_fields.specs.Formats.{Format, IsFormat};
ghost use Rattle.wire_messages.specs.Wires.{Takes};
ghost use Rattle.snap_state.specs.Tables.{at_most};

use std::alloc::{AllocError, Global};
use vst_base::Machine;
use wire_fields::Input;

/// A machine whose states have bytes, each one spelling.
pub trait Snap: Machine {
    /// Which states have bytes, their bytes, and which state stands in front of others.
    ghost states: { Self → Format Self.State };

    /// How many parts a state has, as pairs of a store.
    ghost parts: { Self → Self.State → ℕ };

    /// Adds the state's bytes at the end, or a part of them.
    fn put_state(&self, state: &Self::State, out: &mut Vec<u8>) -> Result<(), AllocError>
        requires { parts self.now state.now ≤ MAX_INDEX }
        ensures ok { OnOk result (out.new.items ≡ out.old.items ++ (states self.now).spell state.now) }
        ensures fits { OnOk result ((states self.now).Fits state.now) }
        ensures err { OnErr result (IsPrefix out.old.items out.new.items) };

    /// The state whose bytes stand in front, of at most so many parts, and `None` where none does. What is left of the input after
    /// a `None` or an `Err` is not said.
    fn take_state(
        &self,
        alloc: Global,
        input: &mut Input<'_>,
        most: u32,
    ) -> Result<Option<Self::State>, AllocError>
        ensures { Takes (at_most (parts self.now) most (states self.now)) input.old input.new result };

    /// What is put reads back, and what is read has no other bytes.
    ghost is_format: { (m : Self) → IsFormat (states m) };

    /// The first state has no part.
    ghost none_at_first: { (m : Self) → parts m (Self.meaning m).init ≡ 0 };

    /// A command adds one part at most.
    ghost one_more: { (m : Self) (s : Self.State) (c : Self.Cmd) → parts m ((Self.meaning m).apply s c).0 ≤ parts m s + 1 };
}
