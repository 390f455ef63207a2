ghost use Rattle.std.specs.Prelude.{◌≡◌, ◌++◌, IfOk, OnOk};
ghost use Rattle.command_line.specs.CommandSet.{CanBeMade};
ghost use Rattle.command_line.specs.declared.command.Command.TheVariants as command;
ghost use Rattle.made_schedules.specs.MadeTexts.{made_counts};
ghost use Rattle.schedule_text.specs.Printing.{as_line, numbered};
ghost use Rattle.commands.specs.Answers.{counts_text};
ghost use Rattle.commands.specs.Seen.{SourceSeen, ran_beside};
ghost use Rattle.commands.specs.Outcomes.{AnswersCommand};

use crate::telling::tell;
use crate::{Complaint, DONE, WRITE_FAILED, push_numbered};
use command_line::MadeSchedule;
use made_schedules::{MakeFault, made_schedules_are_replayed, make, summary};
use outside::{Sink, WriteFault, write_all};
use schedule_replay::Done;
use schedule_text::NEWLINE;
use std::alloc::{AllocError, Global};

// The command make: a made schedule on the output.
pub(crate) fn run_make<O: Sink, E: Sink>(
    alloc: Global,
    schedule: MadeSchedule,
    out: &mut O,
    err: &mut E,
) -> u8
    requires { CanBeMade schedule }
    ensures { (input : SourceSeen) → AnswersCommand (command.Make schedule)
        (ran_beside O.Sink E.Sink input out.old out.new err.old err.new) result }
{
    made_schedules_are_replayed();
    match make(alloc, schedule.stack, schedule.seed, schedule.steps, out) {
        Ok(()) => DONE,
        Err(MakeFault::Write) => WRITE_FAILED,
        Err(MakeFault::Memory) => tell(alloc, err, Complaint::Memory),
    }
}

// Adds the line of a count.
fn push_count(text: &mut Vec<u8>, name: &[u8], count: u64) -> Result<(), AllocError>
    ensures { OnOk result (text.new.items ≡ text.old.items ++ as_line (numbered name.now count)) }
{
    push_numbered(text, name, count)?;
    text.push(NEWLINE)?;
    Ok(())
}

// The lines of the counts of a replay.
fn counts_text(alloc: Global, done: &Done) -> Result<Vec<u8>, AllocError>
    ensures { IfOk result (λ text. text.items ≡ counts_text done.now) }
{
    let mut text = Vec::new(alloc);
    push_count(&mut text, b"events", done.events)?;
    push_count(&mut text, b"inputs", done.inputs)?;
    push_count(&mut text, b"outputs", done.outputs)?;
    push_count(&mut text, b"replies", done.replies)?;
    push_count(&mut text, b"image", done.image)?;
    Ok(text)
}

// The counts of the replay of a made schedule, as lines.
fn summary_text(alloc: Global, schedule: MadeSchedule) -> Result<Vec<u8>, AllocError>
    requires { CanBeMade schedule }
    ensures { IfOk result (λ text. text.items ≡ counts_text (made_counts schedule.stack schedule.seed schedule.steps)) }
{
    let done = summary(alloc, schedule.stack, schedule.seed, schedule.steps)?;
    counts_text(alloc, &done)
}

// The command make with --summary: the counts of a replay of the made schedule on the output.
pub(crate) fn run_summary<O: Sink, E: Sink>(
    alloc: Global,
    schedule: MadeSchedule,
    out: &mut O,
    err: &mut E,
) -> u8
    requires { CanBeMade schedule }
    ensures { (input : SourceSeen) → AnswersCommand (command.Summarize schedule)
        (ran_beside O.Sink E.Sink input out.old out.new err.old err.new) result }
{
    made_schedules_are_replayed();
    let text = match summary_text(alloc, schedule) {
        Ok(text) => text,
        Err(AllocError) => return tell(alloc, err, Complaint::Memory),
    };
    match write_all(out, &text) {
        Ok(()) => DONE,
        Err(WriteFault::Failed) => WRITE_FAILED,
        Err(WriteFault::Memory) => tell(alloc, err, Complaint::Memory),
    }
}
