ghost use Rattle.std.specs.Prelude.{◌≡◌, ◌≢◌, ◌≤◌, IfOk, IsErrOf, OnErr, OnOk, min};
ghost use Rattle.outside.specs.Counting.{Rose};
ghost use Rattle.outside.specs.Wholes.{Gained, GainedPrefix};
ghost use Rattle.schedule_text.specs.Headers.{header_text};
ghost use Rattle.schedule_text.specs.Printing.{as_line};
ghost use Rattle.vst_base.specs.Stacks.{row_of};
ghost use Rattle.vst_base.specs.declared.net.Net.TheVariants as net;
ghost use Rattle.vst_base.specs.declared.step.TheConstants.{MAX_STEPS};
ghost use Rattle.made_schedules.specs.MadeTexts.{made_counts, made_header, made_nodes, made_text, wanted_nodes};
ghost use Rattle.made_schedules.specs.Making.{WritesText};

use crate::MakeFault;
use crate::laws::{made_schedules_are_allowed, made_schedules_are_replayed};
use crate::writing::Steps;
use outside::Sink;
use outside_mem::{SteadySink, SteadySource};
use schedule_replay::{Done, ReplayFault, replay};
use schedule_text::{Header, WriteFault, print_text};
use stacks::on_stack;
use std::alloc::{AllocError, Global};
use vst_base::{Net, StackId, StackRow};

// On how many nodes schedules of a stack are made.
fn made_nodes(row: &StackRow) -> u8
    ensures { result ≡ made_nodes row.now }
{
    let wanted = match row.net {
        Net::Fail => 5,
        Net::Acts => 5,
        Net::One | Net::Bag | Net::Dup | Net::Ord | Net::Loss => 4,
    };
    row.most.min(wanted)
}

// The header of a made schedule of a stack.
fn made_header(stack: StackId) -> Header
    ensures { result ≡ made_header stack }
{
    let row = stack.row();
    Header {
        net: row.net,
        stack,
        nodes: made_nodes(&row),
    }
}

// The line of a header.
fn header_line(alloc: Global, header: Header) -> Result<Vec<u8>, AllocError>
    ensures { IfOk result (λ line. line.items ≡ as_line (header_text header)) }
{
    let mut line = Vec::new(alloc);
    header.push_text(&mut line)?;
    line.push(b'\n')?;
    Ok(line)
}

// Writes the whole text of a schedule.
fn write_schedule<K: Sink>(
    alloc: Global,
    stack: StackId,
    seed: u32,
    steps: u32,
    sink: &mut K,
) -> Result<(), WriteFault>
    requires sends { (row_of stack).net ≢ net.One }
    requires few { steps ≤ MAX_STEPS }
    ensures { WritesText (made_text stack seed steps) (K.written sink.old) (K.written sink.new) (K.faults sink.old) (K.faults sink.new)
        (K.wants sink.old) (K.wants sink.new) result }
{
    let header = made_header(stack);
    let line = header_line(alloc, header)?;
    made_schedules_are_allowed();
    match print_text(sink, &line) {
        Ok(()) => on_stack(&header, Steps { alloc, seed, steps }, sink, &mut ()),
        Err(fault) => Err(fault),
    }
}

/// Writes the schedule of a stack that is made from a number and has so many steps, each step as it is made. The stack's network has
/// to carry packets, and there are at most `MAX_STEPS` steps. At an `Err` a front of the text was written. The memory is that of a
/// replay, and not of the text.
pub fn make<K: Sink>(
    alloc: Global,
    stack: StackId,
    seed: u32,
    steps: u32,
    sink: &mut K,
) -> Result<(), MakeFault>
    requires sends { (row_of stack).net ≢ net.One }
    requires few { steps ≤ MAX_STEPS }
    ensures ok { OnOk result (Gained (K.written sink.old) (K.written sink.new) (made_text stack seed steps)) }
    ensures err { OnErr result (GainedPrefix (K.written sink.old) (K.written sink.new) (made_text stack seed steps)) }
    ensures write { IsErrOf result MakeFault.Write → Rose (K.faults sink.old) (K.faults sink.new) }
    ensures unfailed { IsErrOf result MakeFault.Memory → K.faults sink.new ≡ K.faults sink.old }
    ensures unwanted { IsErrOf result MakeFault.Write → K.wants sink.new ≡ K.wants sink.old }
    ensures quiet { OnOk result ((K.faults sink.new ≡ K.faults sink.old) × (K.wants sink.new ≡ K.wants sink.old)) }
    ensures counts { K.faults sink.old ≤ K.faults sink.new }
{
    match write_schedule(alloc, stack, seed, steps, sink) {
        Ok(()) => Ok(()),
        Err(WriteFault::Write) => Err(MakeFault::Write),
        Err(WriteFault::Memory) => Err(MakeFault::Memory),
    }
}

/// The counts of a replay of what `make` writes, over memory, under the same conditions: at most `MAX_STEPS` steps, of a stack whose
/// network has packets.
pub fn summary(alloc: Global, stack: StackId, seed: u32, steps: u32) -> Result<Done, AllocError>
    requires sends { (row_of stack).net ≢ net.One }
    requires few { steps ≤ MAX_STEPS }
    ensures { IfOk result (λ done. done ≡ made_counts stack seed steps) }
{
    made_schedules_are_replayed();
    let mut made = SteadySink::new(alloc);
    match make(alloc, stack, seed, steps, &mut made) {
        Ok(()) => {}
        Err(MakeFault::Memory) => return Err(AllocError),
        Err(MakeFault::Write) => unreachable!(),
    }
    let mut source = SteadySource::new(made.written().to_vec(alloc)?);
    match replay(alloc, &mut source, &mut SteadySink::new(alloc)) {
        Ok(done) => Ok(done),
        Err(ReplayFault::Memory) => Err(AllocError),
        Err(ReplayFault::Read | ReplayFault::Write | ReplayFault::Refused { .. }) => unreachable!(),
    }
}
