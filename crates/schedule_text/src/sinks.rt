ghost use Rattle.std.specs.Prelude.{◌≡◌, ◌≤◌, IfErr, IsErrOf, OnErr, OnOk};
ghost use Rattle.outside.specs.Counting.{Rose};
ghost use Rattle.outside.specs.Wholes.{Gained, GainedPrefix};
ghost use Rattle.schedule_text.specs.Printing.{as_line, lines_text, step_text, trace_text};
ghost use Rattle.schedule_text.specs.Sending.{HasWriteCause, Spilled};

use crate::printing::Printed;
use app_text::AppText;
use line_reader::WriteFault;
use outside::{Sink, WriteFault as SinkFault, write_all};
use std::alloc::Global;
use vst_base::{Item, Step};

/// How many bytes are gathered before they are written.
const PIECE: usize = 4_096;

/// Writes a text. At an `Err` a front of it was written.
pub fn print_text<K: Sink>(sink: &mut K, text: &[u8]) -> Result<(), WriteFault>
    ensures ok { OnOk result (Gained (K.written sink.old) (K.written sink.new) text.now) }
    ensures err { OnErr result (GainedPrefix (K.written sink.old) (K.written sink.new) text.now) }
    ensures fault { IfErr result (HasWriteCause (K.faults sink.old) (K.faults sink.new)) }
    ensures memory { IsErrOf result WriteFault.Memory → Rose (K.wants sink.old) (K.wants sink.new) }
    ensures unfailed { IsErrOf result WriteFault.Memory → K.faults sink.new ≡ K.faults sink.old }
    ensures unwanted { IsErrOf result WriteFault.Write → K.wants sink.new ≡ K.wants sink.old }
    ensures quiet { OnOk result ((K.faults sink.new ≡ K.faults sink.old) × (K.wants sink.new ≡ K.wants sink.old)) }
    ensures counts { K.faults sink.old ≤ K.faults sink.new }
{
    match write_all(sink, text) {
        Ok(()) => Ok(()),
        Err(SinkFault::Failed) => Err(WriteFault::Write),
        Err(SinkFault::Memory) => Err(WriteFault::Memory),
    }
}

// Writes what was gathered, once it is enough for a write.
fn spill<K: Sink>(sink: &mut K, text: &mut Vec<u8>) -> Result<(), WriteFault>
    ensures ok { OnOk result (Spilled (K.written sink.old) (K.written sink.new) text.old.items text.new.items) }
    ensures err { OnErr result (GainedPrefix (K.written sink.old) (K.written sink.new) text.old.items) }
    ensures fault { IfErr result (HasWriteCause (K.faults sink.old) (K.faults sink.new)) }
    ensures memory { IsErrOf result WriteFault.Memory → Rose (K.wants sink.old) (K.wants sink.new) }
    ensures unfailed { IsErrOf result WriteFault.Memory → K.faults sink.new ≡ K.faults sink.old }
    ensures unwanted { IsErrOf result WriteFault.Write → K.wants sink.new ≡ K.wants sink.old }
    ensures quiet { OnOk result ((K.faults sink.new ≡ K.faults sink.old) × (K.wants sink.new ≡ K.wants sink.old)) }
    ensures counts { K.faults sink.old ≤ K.faults sink.new }
{
    if text.len() < PIECE {
        return Ok(());
    }
    print_text(sink, text)?;
    text.clear();
    Ok(())
}

/// Writes a line for each of some things, in order. At an `Err` a front of them was written.
pub fn print_lines<A: AppText, P: Printed<A>, K: Sink>(
    alloc: Global,
    sink: &mut K,
    lines: &[P],
) -> Result<(), WriteFault>
    ensures ok { OnOk result (Gained (K.written sink.old) (K.written sink.new) (lines_text P.text lines.now)) }
    ensures err { OnErr result (GainedPrefix (K.written sink.old) (K.written sink.new) (lines_text P.text lines.now)) }
    ensures fault { IfErr result (HasWriteCause (K.faults sink.old) (K.faults sink.new)) }
    ensures unfailed { IsErrOf result WriteFault.Memory → K.faults sink.new ≡ K.faults sink.old }
    ensures unwanted { IsErrOf result WriteFault.Write → K.wants sink.new ≡ K.wants sink.old }
    ensures quiet { OnOk result ((K.faults sink.new ≡ K.faults sink.old) × (K.wants sink.new ≡ K.wants sink.old)) }
    ensures counts { K.faults sink.old ≤ K.faults sink.new }
{
    let mut text = Vec::new(alloc);
    for line in lines {
        line.push_line(&mut text)?;
        spill(sink, &mut text)?;
    }
    print_text(sink, &text)
}

/// Writes the line of a step. At an `Err` a front of it was written.
pub fn print_step<A: AppText, K: Sink>(
    alloc: Global,
    sink: &mut K,
    step: &Step<A::Input>,
) -> Result<(), WriteFault>
    ensures ok { OnOk result (Gained (K.written sink.old) (K.written sink.new) (as_line (step_text A.input_text step.now))) }
    ensures err { OnErr result (GainedPrefix (K.written sink.old) (K.written sink.new) (as_line (step_text A.input_text step.now))) }
    ensures fault { IfErr result (HasWriteCause (K.faults sink.old) (K.faults sink.new)) }
    ensures unfailed { IsErrOf result WriteFault.Memory → K.faults sink.new ≡ K.faults sink.old }
    ensures unwanted { IsErrOf result WriteFault.Write → K.wants sink.new ≡ K.wants sink.old }
    ensures quiet { OnOk result ((K.faults sink.new ≡ K.faults sink.old) × (K.wants sink.new ≡ K.wants sink.old)) }
    ensures counts { K.faults sink.old ≤ K.faults sink.new }
{
    let mut text = Vec::new(alloc);
    Printed::<A>::push_line(step, &mut text)?;
    print_text(sink, &text)
}

/// Writes the lines of a trace, in order. At an `Err` a front of them was written.
pub fn print_trace<A: AppText, K: Sink>(
    alloc: Global,
    sink: &mut K,
    items: &[Item<A::Input, A::Output>],
) -> Result<(), WriteFault>
    ensures ok { OnOk result (Gained (K.written sink.old) (K.written sink.new) (trace_text A.input_text A.output_text items.now)) }
    ensures err { OnErr result (GainedPrefix (K.written sink.old) (K.written sink.new) (trace_text A.input_text A.output_text items.now)) }
    ensures fault { IfErr result (HasWriteCause (K.faults sink.old) (K.faults sink.new)) }
    ensures unfailed { IsErrOf result WriteFault.Memory → K.faults sink.new ≡ K.faults sink.old }
    ensures unwanted { IsErrOf result WriteFault.Write → K.wants sink.new ≡ K.wants sink.old }
    ensures quiet { OnOk result ((K.faults sink.new ≡ K.faults sink.old) × (K.wants sink.new ≡ K.wants sink.old)) }
    ensures counts { K.faults sink.old ≤ K.faults sink.new }
{
    print_lines::<A, Item<A::Input, A::Output>, K>(alloc, sink, items)
}
