ghost use Rattle.std.specs.Prelude.{Err, Ok, codes};
ghost use Rattle.made_schedules.specs.Examples.{writes};

use line_reader::WriteFault;

/// What writing a text comes to: all of it, or a front of it at a failed write or for want of memory, each with its count and no other.
pub fn worked_writings()
    ensures whole { writes (codes "held\nin 1 lock\ntick 0\n") 3 7 (Ok tt) }
    ensures not_whole { writes (codes "held\nin 1 lock\n") 3 7 (Ok tt) → ⊥ }
    ensures whole_with_a_fault { writes (codes "held\nin 1 lock\ntick 0\n") 4 7 (Ok tt) → ⊥ }
    ensures whole_with_a_want { writes (codes "held\nin 1 lock\ntick 0\n") 3 8 (Ok tt) → ⊥ }
    ensures failed { writes (codes "held\nin 1 lo") 4 7 (Err WriteFault.Write) }
    ensures failed_uncounted { writes (codes "held\nin 1 lo") 3 7 (Err WriteFault.Write) → ⊥ }
    ensures failed_with_a_want { writes (codes "held\nin 1 lo") 4 8 (Err WriteFault.Write) → ⊥ }
    ensures wanted { writes (codes "held\nin 1 lo") 3 8 (Err WriteFault.Memory) }
    ensures wanted_with_a_fault { writes (codes "held\nin 1 lo") 4 8 (Err WriteFault.Memory) → ⊥ }
{}
