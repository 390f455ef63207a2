ghost use Rattle.std.specs.Prelude.{ℕ, ◌≤◌, List, length};
ghost use Rattle.raft_types.specs.Messages.{IsClusterSize};
ghost use Rattle.vst_base.specs.declared.stack.StackId.{StackId};
ghost use Rattle.wire_fields.specs.Fields.{name};
ghost use Rattle.wired.specs.Dealing.{DealsInBytes};
ghost use Rattle.wired.specs.RaftDealLaws.{raft_deals};
ghost use Rattle.wired.specs.RaftFitLaws.{raft_fits};
ghost use Rattle.wired.specs.RaftSaving.{IsAsked};
ghost use Rattle.wired.specs.RaftSending.{GoodRaft, GoodReader, HasRaft, HasRead, longest_raft, longest_read};
ghost use Rattle.wired.specs.ReadDealLaws.{read_deals};
ghost use Rattle.wired.specs.ReadFitLaws.{read_fits};

use crate::{AlwaysFits, Saves};
use raft_types::RaftInput;
use raft_xform::Raft;
use read_xform::ReadRaft;
use vst_base::{Machine, Queries};
use wire_messages::Wire;

/// Handlers whose nodes stop and start again, and whose messages and kept states have bytes, on every schedule that may come: of at
/// most `MAX_STEPS` steps, whatever a network does.
pub trait OnDisk: Saves<Msg: Wire> {
    /// Which inputs have bytes.
    ghost has_bytes: { Self.Input → Type 0 };

    /// What a message from one node to another keeps to.
    ghost sends: { ℕ → ℕ → Self.Msg → Type 0 };

    /// What a node's state keeps to after so many steps.
    ghost good: { Self → ℕ → ℕ → Self.State → Type 0 };

    /// No message has more bytes.
    ghost longest: { ℕ };

    /// An input has bytes.
    fn has_bytes(input: &Self::Input)
        ensures { has_bytes input.now };

    /// A message that keeps to it has bytes.
    ghost fits: { (from to : ℕ) (x : Self.Msg) → sends from to x
        → Self.Msg.format.Fits x × (length (Self.Msg.format.spell x) ≤ longest) };

    /// In a cluster of 1 to `MAX_NODES` nodes each event sends such messages, at most `SENDS`, and makes such a state, where what comes
    /// is such, and what a node keeps has bytes in every stack.
    ghost deals: { (h : Self) (stack : StackId) (label : List ℕ) → name.Fits label → IsClusterSize (Self.meaning h).nodes
        → DealsInBytes sends Self.SENDS (Self.saving h stack label) has_bytes (Self.meaning h) (Self.recovery h) (good h) };
}

// What a client asks has bytes.
fn is_asked<C: AlwaysFits>(input: &RaftInput<C>)
    ensures { IsAsked C.format input.now }
{
    input.client.number();
    input.request.number();
    input.cmd.fits();
}

impl<M: Machine> OnDisk for Raft<M>
where
    M::Cmd: AlwaysFits,
{
    ghost has_bytes = { IsAsked M.Cmd.format };

    ghost sends = { HasRaft M.Cmd.format };

    ghost good = { λ r. GoodRaft M.Cmd.format r.nodes };

    ghost longest = { longest_raft };

    fn has_bytes(input: &RaftInput<M::Cmd>) {
        is_asked(input);
    }

    ghost fits = { raft_fits M.Cmd.format M.Cmd.short };

    ghost deals = { λ r stack label named size. raft_deals stack M.Cmd.format label named r.nodes size (M.meaning r.machine) };
}

impl<M: Queries> OnDisk for ReadRaft<M>
where
    M::Cmd: AlwaysFits,
{
    ghost has_bytes = { IsAsked M.Cmd.format };

    ghost sends = { HasRead M.Cmd.format };

    ghost good = { λ r. GoodReader M.Cmd.format (M.reads r.machine) r.nodes };

    ghost longest = { longest_read };

    fn has_bytes(input: &RaftInput<M::Cmd>) {
        is_asked(input);
    }

    ghost fits = { read_fits M.Cmd.format M.Cmd.short };

    ghost deals = { λ r stack label named size. read_deals stack M.Cmd.format label named r.nodes size (M.meaning r.machine)
        (M.reads r.machine) };
}
