ghost use Rattle.std.specs.Prelude.{◌≡◌, Some};
ghost use Rattle.std.specs.Bool.{OnFalse};
ghost use Rattle.command_line.specs.CommandSet.{CanBeMade, IfMakes};
ghost use Rattle.commands.specs.Seen.{ran};
ghost use Rattle.commands.specs.Answers.{reads};
ghost use Rattle.commands.specs.Outcomes.{AnswersCommand};

use crate::checking::run_check;
use crate::making::{run_make, run_summary};
use crate::replaying::run_replay;
use command_line::Command;
use outside::{Sink, Source};
use std::alloc::Global;

/// Runs a command over texts, and answers the status: 0 done, 1 a condition of a claim is false, 3 a line is refused, 4 the input could
/// not be read, 5 a write failed, 8 want of memory.
pub fn run_command<S: Source, O: Sink, E: Sink>(
    alloc: Global,
    command: Command,
    input: &mut S,
    out: &mut O,
    err: &mut E,
) -> u8
    requires { IfMakes command CanBeMade }
    ensures answers { let streams = ran S.Source O.Sink E.Sink input.old input.new out.old out.new err.old err.new in
        AnswersCommand command streams result }
    ensures unread { OnFalse (reads (Some command)) (input.new ≡ input.old) }
{
    match command {
        Command::Replay => run_replay(alloc, input, out, err),
        Command::Check(stack) => run_check(alloc, stack, input, out, err),
        Command::Make(schedule) => run_make(alloc, schedule, out, err),
        Command::Summarize(schedule) => run_summary(alloc, schedule, out, err),
    }
}
