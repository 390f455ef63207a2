ghost use Rattle.std.specs.Prelude.{◌≡◌, ℕ, List, Some, slice_get};
ghost use Rattle.handler_trait.specs.Handling.{Meaning};
ghost use Rattle.net_semantics.specs.Runs.{IsAllowed, no_recovery, run};
ghost use Rattle.net_semantics.specs.Worlds.{Packet};
ghost use Rattle.fifo_observer.specs.Channels.{ends_in, number_of};
ghost use Rattle.fifo_xform.specs.Fifo.{FifoState, fifo};
ghost use Rattle.vst_base.specs.declared.net.Net.{Net};
ghost use Rattle.vst_base.specs.declared.seq.SeqMsg.{SeqMsg as Numbered};
ghost use Rattle.vst_base.specs.declared.step.Step.{Step};

use handler_trait::Handlers;

/// On each schedule that a network allows, the number that a packet bears is how many earlier packets went from its source to its
/// destination. It holds of every record of handlers over the types of `H`, and not of the meaning of `H` alone.
pub fn numbers_are_places<H: Handlers>()
    ensures { (net : Net) (m : Meaning H.State H.Input H.Output H.Msg) (ss : List (Step H.Input))
        → IsAllowed net (fifo m) (no_recovery {S = FifoState H.State H.Msg}) ss
        → (k : ℕ) (p : Packet (Numbered H.Msg))
        → slice_get (run (fifo m) (no_recovery {S = FifoState H.State H.Msg}) ss).packets k ≡ Some p
        → number_of (ends_in (run (fifo m) (no_recovery {S = FifoState H.State H.Msg}) ss).packets) k ≡ Some p.content.number }
{}
