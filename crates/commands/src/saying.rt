ghost use Rattle.std.specs.Prelude.{◌≡◌, ◌≤◌, ◌++◌, IfOk, OnErr, OnOk};
ghost use Rattle.schedule_text.specs.Printing.{numbered};
ghost use Rattle.commands.specs.Lines.{memory_line};
ghost use Rattle.commands.specs.Saying.{Said};
ghost use Rattle.commands.specs.Seen.{sink_seen};

use crate::{OUT_OF_MEMORY, WRITE_FAILED};
use outside::{Sink, WriteFault, write_all};
use std::alloc::AllocError;

/// Writes a line on the error stream, and answers the status that it is written for: 5 where a write fails, and 8 where one wants
/// memory.
pub fn say<E: Sink>(err: &mut E, line: &[u8], status: u8) -> u8
    ensures said { Said status line.now (sink_seen E.Sink err.old) (sink_seen E.Sink err.new) result }
    ensures counts { E.faults err.old ≤ E.faults err.new }
{
    match write_all(err, line) {
        Ok(()) => status,
        Err(WriteFault::Failed) => WRITE_FAILED,
        Err(WriteFault::Memory) => OUT_OF_MEMORY,
    }
}

/// Says on the error stream that memory is wanted, and answers the status of that.
pub fn say_memory<E: Sink>(err: &mut E) -> u8
    ensures said { Said 8 memory_line (sink_seen E.Sink err.old) (sink_seen E.Sink err.new) result }
    ensures counts { E.faults err.old ≤ E.faults err.new }
{
    say(err, b"memory\n", OUT_OF_MEMORY)
}

/// Says a line that was made, and answers as `say` does, or says that memory was wanted for it.
pub fn say_made<E: Sink>(err: &mut E, line: Result<Vec<u8>, AllocError>, status: u8) -> u8
    ensures made { IfOk line (λ text. Said status text.items (sink_seen E.Sink err.old) (sink_seen E.Sink err.new) result) }
    ensures wanted { OnErr line (Said 8 memory_line (sink_seen E.Sink err.old) (sink_seen E.Sink err.new) result) }
    ensures counts { E.faults err.old ≤ E.faults err.new }
{
    match line {
        Ok(text) => say(err, &text, status),
        Err(AllocError) => say_memory(err),
    }
}

/// Adds a word, a space and a number in decimal digits to a line.
pub fn push_numbered(line: &mut Vec<u8>, word: &[u8], number: u64) -> Result<(), AllocError>
    ensures { OnOk result (line.new.items ≡ line.old.items ++ numbered word.now number) }
{
    let alloc = *line.allocator();
    line.extend_from_slice(word)?;
    line.push(b' ')?;
    line.extend_from_slice(number.to_string(alloc)?.as_bytes())?;
    Ok(())
}
