ghost use Rattle.std.specs.Prelude.{◌≡◌, List};
ghost use Rattle.handler_trait.specs.Handling.{Meaning};
ghost use Rattle.net_semantics.specs.Runs.{IsAllowed, no_recovery, run, trace};
ghost use Rattle.retry_xform.specs.Image.{IsDeliveredOrKept, retried_image};
ghost use Rattle.retry_xform.specs.Keeping.{Retrying};
ghost use Rattle.retry_xform.specs.Retransmission.{retrying};
ghost use Rattle.vst_base.specs.declared.step.Step.{Step};

use handler_trait::Handlers;
use vst_base::Net;

/// Where a network that loses, copies and reorders packets allows a schedule for retrying handlers, one that loses none allows its
/// image for the handlers within, clients see the same, and each packet of the image was delivered there or is kept by its sender. It
/// holds of every record of handlers over the types of `H`, and not of the meaning of `H` alone.
pub fn retries_lose_nothing<H: Handlers>()
    ensures allowed { (m : Meaning H.State H.Input H.Output H.Msg) (ss : List (Step H.Input))
        → IsAllowed Net.Loss (retrying m) (no_recovery {S = Retrying H.State H.Msg}) ss
        → IsAllowed Net.Dup m (no_recovery {S = H.State}) (retried_image m ss) }
    ensures same_trace { (m : Meaning H.State H.Input H.Output H.Msg) (ss : List (Step H.Input))
        → IsAllowed Net.Loss (retrying m) (no_recovery {S = Retrying H.State H.Msg}) ss
        → trace (retrying m) (no_recovery {S = Retrying H.State H.Msg}) ss ≡ trace m (no_recovery {S = H.State}) (retried_image m ss) }
    ensures delivered_or_kept { (m : Meaning H.State H.Input H.Output H.Msg) (ss : List (Step H.Input))
        → IsAllowed Net.Loss (retrying m) (no_recovery {S = Retrying H.State H.Msg}) ss
        → IsDeliveredOrKept (retried_image m ss) (run (retrying m) (no_recovery {S = Retrying H.State H.Msg}) ss)
        (run m (no_recovery {S = H.State}) (retried_image m ss)) }
{}
