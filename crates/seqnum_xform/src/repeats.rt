ghost use Rattle.std.specs.Prelude.{◌≡◌, List};
ghost use Rattle.handler_trait.specs.Handling.{Meaning};
ghost use Rattle.net_semantics.specs.Once.{once};
ghost use Rattle.net_semantics.specs.Runs.{IsAllowed, no_recovery, trace};
ghost use Rattle.seqnum_xform.specs.Numbering.{Numbered, sequence_numbered};
ghost use Rattle.vst_base.specs.declared.step.Step.{Step};

use handler_trait::Handlers;
use vst_base::Net;

/// Where a network that copies packets allows a schedule for numbered handlers, a bag allows it without its repeats for the
/// handlers within, and clients see the same. It holds of every record of handlers over the types of `H`, and not of the meaning
/// of `H` alone.
pub fn repeats_do_nothing<H: Handlers>()
    ensures allowed { (m : Meaning H.State H.Input H.Output H.Msg) (ss : List (Step H.Input))
        → IsAllowed Net.Dup (sequence_numbered m) (no_recovery {S = Numbered H.State}) ss
        → IsAllowed Net.Bag m (no_recovery {S = H.State}) (once ss) }
    ensures same_trace { (m : Meaning H.State H.Input H.Output H.Msg) (ss : List (Step H.Input))
        → IsAllowed Net.Dup (sequence_numbered m) (no_recovery {S = Numbered H.State}) ss
        → trace (sequence_numbered m) (no_recovery {S = Numbered H.State}) ss ≡ trace m (no_recovery {S = H.State}) (once ss) }
{}
