ghost use Rattle.std.specs.Prelude.{ℕ, ◌+◌, ◌≤◌, length};
ghost use Rattle.lock_server.specs.Locks.{IsSound};
ghost use Rattle.net_semantics.specs.Runs.{no_recovery};
ghost use Rattle.node_body.specs.declared.commands.TheConstants.{MAX_COMMAND};
ghost use Rattle.vst_base.specs.declared.token.TheConstants.{MAX_VALUE};
ghost use Rattle.wired.specs.BackupDealLaws.{backup_deals, backup_fits};
ghost use Rattle.wired.specs.Dealing.{DealsInBytes, nothing_saved};
ghost use Rattle.wired.specs.FifoDealLaws.{fifo_deals};
ghost use Rattle.wired.specs.LockDealLaws.{lock_deals, lock_fits};
ghost use Rattle.wired.specs.MirrorDealLaws.{mirror_deals, mirror_fits};
ghost use Rattle.wired.specs.NumberedDealLaws.{numbered_deals, numbered_fits};
ghost use Rattle.wired.specs.RetryDealLaws.{retried_fits, retry_deals};
ghost use Rattle.wired.specs.Sending.{Any, GoodBackup, GoodFifo, GoodNumbered, GoodRetry, HasBackup, HasMirror, HasNumbered, HasPut, HasRetried};

use crate::AlwaysFits;
use crate::always_fits::value_fits;
use fifo_xform::Fifo;
use handler_trait::{Handlers, LeavesRoom};
use lock_server::LockServer;
use mirror::Mirror;
use primary_backup::PrimaryBackup;
use retry_xform::Retry;
use seqnum_xform::SeqNum;
use vst_base::{LockInput, Machine, MirrorInput};
use wire_messages::Wire;

/// Handlers whose messages have bytes, on every schedule that may come: of at most `MAX_STEPS` steps, whatever a network does.
pub trait OnWire: Handlers<Msg: Wire> {
    /// Which inputs have bytes.
    ghost has_bytes: { Self.Input → Type 0 };

    /// What a message from one node to another keeps to.
    ghost sends: { ℕ → ℕ → Self.Msg → Type 0 };

    /// What a node's state keeps to after so many steps.
    ghost good: { Self → ℕ → ℕ → Self.State → Type 0 };

    /// No message has more bytes.
    ghost longest: { ℕ };

    /// An input has bytes.
    fn has_bytes(input: &Self::Input)
        ensures { has_bytes input.now };

    /// A message that keeps to it has bytes.
    ghost fits: { (from to : ℕ) (x : Self.Msg) → sends from to x
        → Self.Msg.format.Fits x × (length (Self.Msg.format.spell x) ≤ longest) };

    /// Each event sends such messages, at most `SENDS`, and makes such a state, where what comes is such.
    ghost deals: { (h : Self) → DealsInBytes sends Self.SENDS nothing_saved has_bytes (Self.meaning h) (no_recovery {S = Self.State}) (good h) };
}

impl OnWire for LockServer {
    ghost has_bytes = { λ _. Unit {0} };

    ghost sends = { Any };

    ghost good = { λ nodes t n s. IsSound nodes n s };

    ghost longest = { 1 };

    fn has_bytes(_input: &LockInput) {}

    ghost fits = { lock_fits };

    ghost deals = { lock_deals };
}

impl<M: Machine> OnWire for PrimaryBackup<M>
where
    M::Cmd: AlwaysFits,
{
    ghost has_bytes = { M.Cmd.format.Fits };

    ghost sends = { HasBackup M.Cmd.format };

    ghost good = { λ _. GoodBackup M.Cmd.format };

    ghost longest = { MAX_COMMAND + 1 };

    fn has_bytes(input: &M::Cmd) {
        input.fits();
    }

    ghost fits = { backup_fits M.Cmd.format M.Cmd.short };

    ghost deals = { λ p. backup_deals M.Cmd.format (M.meaning p) };
}

impl OnWire for Mirror {
    ghost has_bytes = { HasPut };

    ghost sends = { HasMirror };

    ghost good = { λ _ _ _ _. Unit {0} };

    ghost longest = { MAX_VALUE + 3 };

    fn has_bytes(input: &MirrorInput) {
        match input {
            MirrorInput::Put(value) => value_fits(value),
        }
    }

    ghost fits = { mirror_fits };

    ghost deals = { mirror_deals };
}

impl<H: OnWire> OnWire for SeqNum<H> {
    ghost has_bytes = { H.has_bytes };

    ghost sends = { HasNumbered H.sends };

    ghost good = { λ h. GoodNumbered (H.good h) };

    ghost longest = { H.longest + 8 };

    fn has_bytes(input: &H::Input) {
        H::has_bytes(input);
    }

    ghost fits = { numbered_fits H.sends H.Msg.format H.longest H.fits };

    ghost deals = { λ h. numbered_deals H.sends H.has_bytes (H.meaning h) (H.good h) (H.deals h) H.few_sends };
}

impl<H: OnWire> OnWire for Fifo<H> {
    ghost has_bytes = { H.has_bytes };

    ghost sends = { HasNumbered H.sends };

    ghost good = { λ h. GoodFifo H.sends (H.good h) };

    ghost longest = { H.longest + 8 };

    fn has_bytes(input: &H::Input) {
        H::has_bytes(input);
    }

    ghost fits = { numbered_fits H.sends H.Msg.format H.longest H.fits };

    ghost deals = { λ h. fifo_deals H.sends H.has_bytes (H.meaning h) (H.good h) (H.deals h) H.few_sends };
}

impl<H: OnWire + LeavesRoom> OnWire for Retry<H> {
    ghost has_bytes = { H.has_bytes };

    ghost sends = { HasRetried H.sends };

    ghost good = { λ h. GoodRetry H.sends (H.meaning h).nodes (H.good h) };

    ghost longest = { H.longest + 9 };

    fn has_bytes(input: &H::Input) {
        H::has_bytes(input);
    }

    ghost fits = { retried_fits H.sends H.Msg.format H.longest H.fits };

    ghost deals = { λ h. retry_deals H.sends H.has_bytes (H.meaning h) (H.good h) (H.deals h) H.leaves_room };
}
