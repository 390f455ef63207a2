ghost use Rattle.std.specs.Prelude.{◌≡◌, List};
ghost use Rattle.handler_trait.specs.Handling.{Meaning};
ghost use Rattle.net_semantics.specs.Runs.{IsAllowed, no_recovery, trace};
ghost use Rattle.fifo_xform.specs.Image.{fifo_image};
ghost use Rattle.fifo_xform.specs.Fifo.{FifoState, fifo};
ghost use Rattle.vst_base.specs.declared.step.Step.{Step};

use handler_trait::Handlers;
use vst_base::Net;

/// Where a network that copies and reorders packets allows a schedule for handlers whose messages come in order, a network of FIFO
/// channels, which keeps the order between two nodes, allows its image for the handlers within, and clients see the same. It holds of
/// every record of handlers over the types of `H`, and not of the meaning of `H` alone.
pub fn order_is_kept<H: Handlers>()
    ensures allowed { (m : Meaning H.State H.Input H.Output H.Msg) (ss : List (Step H.Input))
        → IsAllowed Net.Dup (fifo m) (no_recovery {S = FifoState H.State H.Msg}) ss
        → IsAllowed Net.Ord m (no_recovery {S = H.State}) (fifo_image m ss) }
    ensures same_trace { (m : Meaning H.State H.Input H.Output H.Msg) (ss : List (Step H.Input))
        → IsAllowed Net.Dup (fifo m) (no_recovery {S = FifoState H.State H.Msg}) ss
        → trace (fifo m) (no_recovery {S = FifoState H.State H.Msg}) ss
        ≡ trace m (no_recovery {S = H.State}) (fifo_image m ss) }
{}
