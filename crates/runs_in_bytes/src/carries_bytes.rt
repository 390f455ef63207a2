ghost use Rattle.std.specs.Prelude.{◌≡◌, ℕ, List, Option, option_map, slice_get};
ghost use Rattle.net_semantics.specs.Runs.{no_recovery, run};
ghost use Rattle.net_semantics.specs.ShownFail.{kept_at};
ghost use Rattle.vst_base.specs.declared.stack.StackId.{StackId};
ghost use Rattle.vst_base.specs.declared.step.Step.{Step};
ghost use Rattle.xform_stack.specs.Systems.{world_of};
ghost use Rattle.wired.specs.Wiring.{no_name};
ghost use Rattle.runs_in_bytes.specs.Carrying.{IsCarried, held_content};
ghost use Rattle.runs_in_bytes.specs.CarryingLaws.{carried};
ghost use Rattle.runs_in_bytes.specs.ClusterLaws.{kept_as};

use crate::{ClusterInBytes, InBytes};
use handler_trait::Handlers;
use wire_messages::Wire;
use wired::{OnDisk, OnWire, Saves};
use xform_stack::Network;

/// A network whose packets are bytes.
pub trait CarriesBytes<H: Handlers<Msg: Wire>>: Network<H> {
    /// Which stack's they are.
    ghost stack: { Self → StackId };

    /// What it holds of packet `k`: nothing where no copy of it is in flight.
    ghost held: { Self → ℕ → Option (List ℕ) };

    /// After each schedule that it has followed, what it holds of a packet in flight is the bytes of the packet's message, and it holds
    /// nothing of any other.
    ghost carries: { (w : Self) (ss : List (Step H.Input)) → Self.sound w → Self.follows w ss
        → (k : ℕ) → IsCarried H.Msg.format (stack w) (held w k) (slice_get (world_of (Self.system w) ss).packets k) };
}

/// A network whose packets are bytes, and so is what a node keeps while it is stopped.
pub trait KeepsBytes<H: Saves<Msg: Wire>>: CarriesBytes<H> + Network<H, Kept = H::Kept> {
    /// What a node keeps while it is stopped, and nothing while it is up.
    ghost stopped: { Self → ℕ → Option (List ℕ) };

    /// After each schedule that it has followed, that is the bytes of what the node kept when it stopped.
    ghost keeps: { (w : Self) (ss : List (Step H.Input)) → Self.sound w → Self.follows w ss
        → (n : ℕ) → stopped w n ≡ option_map ((H.saving (Self.within w) (Self.stack w) no_name).spell n) ((world_of (Self.system w) ss).kept n) };
}

impl<H: OnWire> CarriesBytes<H> for InBytes<H> {
    ghost stack = { λ w. w.handlers.stack };

    ghost held = { λ w k. held_content (slice_get w.packets k) };

    ghost carries = { λ w ss sound follows k. carried H.Msg.format w.handlers.stack w.handlers.name
        (run (H.meaning w.handlers.inner) (no_recovery {S = H.State}) ss).packets (slice_get w.packets k) k
        (H.meaning w.handlers.inner).nodes w.taken sound.own.named (sound.world.packets k) (follows.shows.packets k) };
}

impl<H: OnDisk> CarriesBytes<H> for ClusterInBytes<H> {
    ghost stack = { λ w. w.handlers.stack };

    ghost held = { λ w k. held_content (slice_get w.packets k) };

    ghost carries = { λ w ss sound follows k. carried H.Msg.format w.handlers.stack w.handlers.name
        (run (H.meaning w.handlers.inner.inner) (H.recovery w.handlers.inner.inner) ss).packets (slice_get w.packets k) k
        (H.meaning w.handlers.inner.inner).nodes w.taken sound.own.named (sound.world.world.packets k) (follows.shows.packets k) };
}

impl<H: OnDisk> KeepsBytes<H> for ClusterInBytes<H> {
    ghost stopped = { λ w n. kept_at (slice_get w.stopped n) };

    ghost keeps = { λ w ss sound follows n. kept_as H.Msg.format H.saving w.handlers
        (run (H.meaning w.handlers.inner.inner) (H.recovery w.handlers.inner.inner) ss) n (kept_at (slice_get w.stopped n))
        sound.own.named (follows.shows.kept n) };
}
