ghost use Rattle.std.specs.Prelude.{◌≡◌, ℕ, List};
ghost use Rattle.handler_trait.specs.Handling.{Meaning};
ghost use Rattle.net_semantics.specs.Runs.{IsAllowed, no_recovery, run};
ghost use Rattle.retry_observer.specs.Places.{numbers_at, up_to};
ghost use Rattle.retry_xform.specs.Image.{names};
ghost use Rattle.retry_xform.specs.Keeping.{Retrying};
ghost use Rattle.retry_xform.specs.Retransmission.{retrying};
ghost use Rattle.vst_base.specs.declared.net.Net.{Net};
ghost use Rattle.vst_base.specs.declared.step.Step.{Step};

use handler_trait::Handlers;

/// On each schedule that a network allows, the packets of the run within that a node sent have the numbers 0, 1 and so on in this
/// order, up to the next number of the node. It holds of every record of handlers over the types of `H`, and not of the meaning of `H`
/// alone.
pub fn names_are_in_turn<H: Handlers>()
    ensures { (net : Net) (m : Meaning H.State H.Input H.Output H.Msg) (ss : List (Step H.Input))
        → IsAllowed net (retrying m) (no_recovery {S = Retrying H.State H.Msg}) ss
        → (n : ℕ) → numbers_at n (names (run (retrying m) (no_recovery {S = Retrying H.State H.Msg}) ss).packets)
        ≡ up_to ((run (retrying m) (no_recovery {S = Retrying H.State H.Msg}) ss).state n).next }
{}
