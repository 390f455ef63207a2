ghost use Rattle.std.specs.Prelude.{◌≡◌, ◌≤◌, IfOk};
ghost use Rattle.schedule_text.specs.Printing.{refusal_line};
ghost use Rattle.commands.specs.Answers.{condition_line};
ghost use Rattle.commands.specs.Complaints.{Told};
ghost use Rattle.commands.specs.Seen.{sink_seen};

use crate::{
    CONDITION_FALSE, Complaint, INPUT_REFUSED, READ_FAILED, WORDS_REFUSED, push_numbered, say,
    say_made, say_memory,
};
use outside::Sink;
use schedule_text::{NEWLINE, Why, push_refusal};
use std::alloc::{AllocError, Global};

// The line that names a condition that is false, and the line at which it is.
fn condition_line(alloc: Global, condition: u8, line: u32) -> Result<Vec<u8>, AllocError>
    ensures { IfOk result (λ text. text.items ≡ condition_line condition line) }
{
    let mut text = Vec::new(alloc);
    push_numbered(&mut text, b"condition", u64::from(condition))?;
    text.push(b' ')?;
    push_numbered(&mut text, b"line", u64::from(line))?;
    text.push(NEWLINE)?;
    Ok(text)
}

// The line that names a refused line.
fn refusal_line(alloc: Global, line: u32, why: Why) -> Result<Vec<u8>, AllocError>
    ensures { IfOk result (λ text. text.items ≡ refusal_line line why) }
{
    let mut text = Vec::new(alloc);
    push_refusal(&mut text, line, why)?;
    Ok(text)
}

/// Writes the line of a complaint on the error stream, and answers the status of the run: that of the complaint, 5 where a write fails, or
/// 8 where memory is wanted.
pub fn tell<E: Sink>(alloc: Global, err: &mut E, complaint: Complaint) -> u8
    ensures told { Told complaint (sink_seen E.Sink err.old) (sink_seen E.Sink err.new) result }
    ensures counts { E.faults err.old ≤ E.faults err.new }
{
    match complaint {
        Complaint::Condition(condition, line) => {
            say_made(err, condition_line(alloc, condition, line), CONDITION_FALSE)
        }
        Complaint::Words => say(err, b"usage\n", WORDS_REFUSED),
        Complaint::Line(line, why) => say_made(err, refusal_line(alloc, line, why), INPUT_REFUSED),
        Complaint::Read => say(err, b"read\n", READ_FAILED),
        Complaint::Memory => say_memory(err),
    }
}
