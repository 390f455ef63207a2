ghost use Rattle.std.specs.Prelude.{[], ◌∷◌, Err, Ok, Some, codes};
ghost use Rattle.check_text.specs.Examples.{claim, reads};
ghost use Rattle.check_text.specs.Outcomes.{HasReadFault};
ghost use Rattle.vst_base.specs.declared.step.Item.TheVariants as item;
ghost use Rattle.vst_base.specs.declared.step.Step.TheVariants as step;

use schedule_text::{TextFault, Why};
use vst_base::LockInput;

/// A claim that was read whole, the line that is refused, and a read that failed. No line is passed over, and nothing of the text is left
/// out.
pub fn worked_readings()
    ensures whole { reads (codes "in 1 lock\nbelow\ndeliver 0\n") (Some [])
        (Ok (claim (item.Input 1 LockInput.Lock ∷ []) (step.Deliver 0 ∷ []))) }
    ensures not_to_the_end { reads (codes "below\n") (Some (codes "x")) (Ok (claim [] [])) → ⊥ }
    ensures without_its_trace { reads (codes "in 1 lock\nbelow\n") (Some []) (Ok (claim [] [])) → ⊥ }
    ensures refused { reads (codes "in 1 lock\nfoo\n") (Some []) (Err (TextFault.Refused 2 Why.UnknownWord)) }
    ensures refused_at_another_line { reads (codes "in 1 lock\nfoo\n") (Some []) (Err (TextFault.Refused 1 Why.UnknownWord)) → ⊥ }
    ensures refused_for_another { reads (codes "in 1 lock\nfoo\n") (Some []) (Err (TextFault.Refused 2 Why.Text)) → ⊥ }
    ensures refused_though_whole { reads (codes "below\n") (Some []) (Err (TextFault.Refused 1 Why.UnknownWord)) → ⊥ }
    ensures ends_too_early { reads (codes "in 1 lock\n") (Some []) (Err (TextFault.Refused 2 Why.Header)) }
    ensures broke_off { reads (codes "in 1 lock\nfoo\n") (Some (codes "o\n")) (Err TextFault.Read) }
    ensures broke_off_after_a_refusal { reads (codes "foo\nin") (Some (codes "n")) (Err TextFault.Read) → ⊥ }
    ensures failed { HasReadFault 2 3 TextFault.Read }
    ensures failed_uncounted { HasReadFault 2 2 TextFault.Read → ⊥ }
{}
