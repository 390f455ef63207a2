ghost use Rattle.std.specs.Prelude.{◌≡◌, ℕ, List};
ghost use Rattle.handler_trait.specs.Handling.{Recovery};
ghost use Rattle.net_semantics.specs.Worlds.{World};
ghost use Rattle.vst_base.specs.declared.step.Step.{Step};
ghost use Rattle.wired.specs.Same.{RunsAlike};
ghost use Rattle.wired.specs.StackRuns.{MayCome};
ghost use Rattle.runs_in_bytes.specs.Within.{TellsTheSame};

use handler_trait::{Handlers, Rebootable};
use vst_base::Net;

/// Handlers whose nodes stop and start again, carried on bytes alone: their packets are bytes, and so is what a node keeps while it is
/// stopped. They run as the handlers within do.
pub trait OnBytesAlone: Rebootable {
    /// The handlers within.
    type Inner: Handlers<Input = Self::Input, Output = Self::Output>;

    /// What a node of those keeps.
    type InnerKept: Drop;

    /// The handlers within.
    ghost within: { Self → Self.Inner };

    /// How a node of them stops and starts again.
    ghost within_recovery: { Self → Recovery Self.Inner.State Self.InnerKept };

    /// The world in bytes that stands for one of theirs.
    ghost byte_world: { Self → World Self.Inner.State Self.InnerKept Self.Inner.Msg → World Self.State Self.Kept Self.Msg };

    /// Which inputs have bytes.
    ghost has_bytes: { Self.Input → Type 0 };

    /// Whether their packets and what their nodes keep are bytes of their own stack.
    ghost is_own: { Self → Type 0 };

    /// An input has bytes.
    fn has_bytes(input: &Self::Input)
        ensures { has_bytes input.now };

    /// They refuse what the handlers within refuse, and clients see the same.
    fn run_on_bytes_alone()
        ensures { (h : Self) (ss : List (Step Self.Input)) → is_own h → MayCome has_bytes ss
            → RunsAlike Net.Fail (Self.meaning h) (Self.recovery h) (Self.Inner.meaning (within h)) (within_recovery h)
            (byte_world h) ss };

    /// The handlers within.
    fn inner(&self) -> &Self::Inner
        ensures { result.now ≡ within self.now };

    /// The state of the handlers within in a state of a node.
    fn inner_state(state: &Self::State) -> &<Self::Inner as Handlers>::State
        ensures state { (h : Self) (w : World Self.Inner.State Self.InnerKept Self.Inner.Msg) (n : ℕ)
            → state.now ≡ (byte_world h w).state n → result.now ≡ w.state n }
        ensures sound { (h : Self) (n : ℕ) → Self.sound h n state.now → Self.Inner.sound (within h) n result.now };

    /// Of nodes and packets they tell what the handlers within tell.
    ghost tells: { (h : Self) → TellsTheSame (Self.meaning h) (Self.Inner.meaning (within h)) (byte_world h) };
}
