ghost use Rattle.drawn_schedules.specs.Endings.{EndsAs};
ghost use Rattle.commands.specs.Seen.{KeepsCounts, ran};

use crate::draw;
use commands::{Complaint, DONE, WRITE_FAILED, tell};
use outside::{Sink, Source};
use schedule_replay::ReplayFault;
use std::alloc::Global;

/// Draws the schedule on the input, and answers the status: 0 done, 3 a line is refused, 4 the input could not be read, 5 a write failed,
/// 8 want of memory.
pub fn run_draw<S: Source, O: Sink, E: Sink>(
    alloc: Global,
    input: &mut S,
    out: &mut O,
    err: &mut E,
) -> u8
    ensures ends { EndsAs (ran S.Source O.Sink E.Sink input.old input.new out.old out.new err.old err.new) result }
    ensures counts { KeepsCounts (ran S.Source O.Sink E.Sink input.old input.new out.old out.new err.old err.new) }
{
    match draw(alloc, input, out) {
        Ok(()) => DONE,
        Err(ReplayFault::Read) => tell(alloc, err, Complaint::Read),
        Err(ReplayFault::Write) => WRITE_FAILED,
        Err(ReplayFault::Refused { line, why }) => tell(alloc, err, Complaint::Line(line, why)),
        Err(ReplayFault::Memory) => tell(alloc, err, Complaint::Memory),
    }
}
