ghost use Rattle.command_line.specs.declared.command.Command.TheVariants as command;
ghost use Rattle.commands.specs.Seen.{ran};
ghost use Rattle.commands.specs.Outcomes.{AnswersCommand};

use crate::telling::tell;
use crate::{Complaint, DONE, WRITE_FAILED};
use outside::{Sink, Source, WriteFault, write_all};
use std::alloc::Global;
use trace_check::{CheckFault, Verdict, check, permitted_claims_are_explained};
use vst_base::StackId;

// The command check: a trace and an image on the input, the verdict on the output or the error stream.
pub(crate) fn run_check<S: Source, O: Sink, E: Sink>(
    alloc: Global,
    stack: StackId,
    input: &mut S,
    out: &mut O,
    err: &mut E,
) -> u8
    ensures { AnswersCommand (command.Check stack) (ran S.Source O.Sink E.Sink input.old input.new out.old out.new err.old err.new) result }
{
    permitted_claims_are_explained();
    match check(alloc, stack, input) {
        Ok(Verdict::Yes) => match write_all(out, b"permitted\n") {
            Ok(()) => DONE,
            Err(WriteFault::Failed) => WRITE_FAILED,
            Err(WriteFault::Memory) => tell(alloc, err, Complaint::Memory),
        },
        Ok(Verdict::No(condition, line)) => tell(alloc, err, Complaint::Condition(condition, line)),
        Err(CheckFault::Read) => tell(alloc, err, Complaint::Read),
        Err(CheckFault::Refused { line, why }) => tell(alloc, err, Complaint::Line(line, why)),
        Err(CheckFault::Memory) => tell(alloc, err, Complaint::Memory),
    }
}
