ghost use Rattle.std.specs.Prelude.{[], Err, Ok, codes};
ghost use Rattle.trace_check.specs.Examples.{comes_to};
ghost use Rattle.trace_check.specs.Outcomes.{HasFault};

use crate::{CheckFault, Verdict};
use line_reader::Why;

/// What a check comes to: the verdict on a text that was read to its end, the line that is refused, or a read that failed.
pub fn worked_outcomes()
    ensures permitted { comes_to (Ok Verdict.Yes) [] (Ok Verdict.Yes) }
    ensures denied { comes_to (Ok (Verdict.No 4 2)) [] (Ok (Verdict.No 4 2)) }
    ensures permitted_though_denied { comes_to (Ok (Verdict.No 4 2)) [] (Ok Verdict.Yes) → ⊥ }
    ensures denied_at_another { comes_to (Ok (Verdict.No 4 2)) [] (Ok (Verdict.No 4 1)) → ⊥ }
    ensures not_to_the_end { comes_to (Ok Verdict.Yes) (codes "tick 0\n") (Ok Verdict.Yes) → ⊥ }
    ensures permitted_though_refused { comes_to (Err (2, Why.UnknownWord)) [] (Ok Verdict.Yes) → ⊥ }
    ensures refused { comes_to (Err (2, Why.UnknownWord)) [] (Err (CheckFault.Refused 2 Why.UnknownWord)) }
    ensures refused_at_another { comes_to (Err (2, Why.UnknownWord)) [] (Err (CheckFault.Refused 1 Why.UnknownWord)) → ⊥ }
    ensures refused_for_another { comes_to (Err (2, Why.UnknownWord)) [] (Err (CheckFault.Refused 2 Why.Number)) → ⊥ }
    ensures refused_though_permitted { comes_to (Ok Verdict.Yes) [] (Err (CheckFault.Refused 2 Why.UnknownWord)) → ⊥ }
    ensures broke_off { comes_to (Ok Verdict.Yes) (codes " 0\n") (Err CheckFault.Read) }
    ensures failed { HasFault 2 3 CheckFault.Read }
    ensures failed_uncounted { HasFault 2 2 CheckFault.Read → ⊥ }
{}
