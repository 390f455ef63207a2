ghost use Rattle.std.specs.Prelude.{[], ◌++◌, Err, None, Ok, Some, codes, replicate};
ghost use Rattle.schedule_text.specs.Examples.{ended, header, header_near, opens, reader, step_near, steps};
ghost use Rattle.schedule_text.specs.Streams.{HasHeaderCause};

use crate::TextFault;
use line_reader::{ReadFault, Why};
use vst_base::{LockInput, Step};

/// The header of a text, after a line that is skipped: at its own line, and no other header. A text may end before one, or break off,
/// and only a read that failed is counted, before the end.
pub fn worked_openings()
    ensures opens { opens (codes "#\nschedule 1 bag lock 2\n") (reader 2 (codes "schedule 1 bag lock 2") 0) (Some []) (Ok header) }
    ensures uncounted { opens (codes "#\nschedule 1 bag lock 2\n") (reader 1 (codes "schedule 1 bag lock 2") 0) (Some []) (Ok header) → ⊥ }
    ensures broke_off { opens (codes "#\nsched") (reader 1 (codes "s") 0) (Some (codes "ched")) (Err TextFault.Read) }
    ensures ends_before_it { opens [] ended (Some []) (Err (TextFault.Refused 1 Why.Header)) }
    ensures ends_at_another_line { opens [] ended (Some []) (Err (TextFault.Refused 2 Why.Header)) → ⊥ }
    ensures failed { HasHeaderCause (reader 0 [] 0) 2 3 TextFault.Read }
    ensures failed_uncounted { HasHeaderCause (reader 0 [] 0) 2 2 TextFault.Read → ⊥ }
    ensures failed_past_the_end { HasHeaderCause ended 2 3 TextFault.Read → ⊥ }
{}

/// The next step of a text: at its own line, and no other step.
pub fn worked_nexts()
    ensures a_step { steps (codes "tick 0\n") (reader 2 (codes "tick 0") 1) (Some []) (Ok (Step.Tick 0)) }
    ensures after_a_comment { steps (codes "#\ntick 0\n") (reader 3 (codes "tick 0") 1) (Some []) (Ok (Step.Tick 0)) }
    ensures uncounted { steps (codes "#\ntick 0\n") (reader 2 (codes "tick 0") 1) (Some []) (Ok (Step.Tick 0)) → ⊥ }
    ensures another { steps (codes "tick 0\n") (reader 2 (codes "tick 0") 1) (Some []) (Ok (Step.In 1 LockInput.Lock)) → ⊥ }
    ensures broke_off { steps (codes "tick 0\n") (reader 1 (codes "tick") 0) (Some (codes " 0\n")) (Err ReadFault.Read) }
    ensures the_end_before_it { steps (codes "tick 0\n") (reader 1 [] 0) (Some []) (Err ReadFault.End) → ⊥ }
{}

/// How far past skipped lines was read: no more than 4,096 bytes, and not past the header or a step too.
pub fn worked_nearness()
    ensures before_the_header { header_near (codes "#\n" ++ replicate 4096 35) (Some []) }
    ensures past_the_header { header_near (codes "schedule 1 bag lock 2\n" ++ replicate 4096 35) (Some []) → ⊥ }
    ensures header_untold { header_near (codes "#\n") None → ⊥ }
    ensures before_a_step { step_near (codes "#\n" ++ replicate 4096 35) (Some []) }
    ensures past_a_step { step_near (codes "tick 0\n" ++ replicate 4096 35) (Some []) → ⊥ }
    ensures step_untold { step_near (codes "#\n") None → ⊥ }
{}
