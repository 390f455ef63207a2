ghost use Rattle.command_line.specs.declared.command.Command.TheVariants as command;
ghost use Rattle.commands.specs.Seen.{ran};
ghost use Rattle.commands.specs.Outcomes.{AnswersCommand};

use crate::telling::tell;
use crate::{Complaint, DONE, WRITE_FAILED};
use outside::{Sink, Source};
use schedule_replay::{ReplayFault, replay, replays_are_explained};
use std::alloc::Global;

// The command replay: a schedule on the input, its trace and its image on the output.
pub(crate) fn run_replay<S: Source, O: Sink, E: Sink>(
    alloc: Global,
    input: &mut S,
    out: &mut O,
    err: &mut E,
) -> u8
    ensures { AnswersCommand command.Replay (ran S.Source O.Sink E.Sink input.old input.new out.old out.new err.old err.new) result }
{
    replays_are_explained();
    match replay(alloc, input, out) {
        Ok(_) => DONE,
        Err(ReplayFault::Read) => tell(alloc, err, Complaint::Read),
        Err(ReplayFault::Write) => WRITE_FAILED,
        Err(ReplayFault::Refused { line, why }) => tell(alloc, err, Complaint::Line(line, why)),
        Err(ReplayFault::Memory) => tell(alloc, err, Complaint::Memory),
    }
}
