ghost use Rattle.std.specs.Prelude.{◌≡◌, ◌≤◌, ◌⊎◌, length, IfErr, IsErrOf, OnErr, OnOk};
ghost use Rattle.outside.specs.Wholes.{GainedPrefix};
ghost use Rattle.schedule_text.specs.Printing.{trace_text};
ghost use Rattle.schedule_text.specs.Sending.{HasWriteCause};
ghost use Rattle.stacks.specs.Plays.{texts_of};
ghost use Rattle.schedule_replay.specs.Playing.{Waits, Writes};
ghost use Rattle.schedule_replay.specs.Tallying.{HasRoom};

use crate::tally::Tally;
use app_text::AppText;
use outside::Sink;
use schedule_text::{Reader, WriteFault, is_line_ahead, print_trace};
use std::alloc::Global;
use xform_stack::Runs;

// Writes what clients saw since it was last written, counts it, and clears it.
pub(crate) fn write_trace<R: Runs, A: AppText<Input = R::Input, Output = R::Output>, K: Sink>(
    alloc: Global,
    running: &mut R,
    tally: &mut Tally,
    sink: &mut K,
) -> Result<(), WriteFault>
    requires { HasRoom tally.old (length (R.progress running.old).trace) }
    ensures ok { OnOk result (Writes R.follows R.progress (texts_of A.input_of A.input_text A.output_of A.output_text A.replies)
        running.old running.new tally.old tally.new (K.written sink.old) (K.written sink.new)) }
    ensures played { OnOk result (R.played running.new ≡ R.played running.old) }
    ensures sound { OnOk result (R.sound running.old → R.sound running.new) }
    ensures err { OnErr result (GainedPrefix (K.written sink.old) (K.written sink.new)
        (trace_text A.input_text A.output_text (R.progress running.old).trace)) }
    ensures fault { IfErr result (HasWriteCause (K.faults sink.old) (K.faults sink.new)) }
    ensures unfailed { IsErrOf result WriteFault.Memory → K.faults sink.new ≡ K.faults sink.old }
    ensures unwanted { IsErrOf result WriteFault.Write → K.wants sink.new ≡ K.wants sink.old }
    ensures quiet { OnOk result ((K.faults sink.new ≡ K.faults sink.old) × (K.wants sink.new ≡ K.wants sink.old)) }
    ensures counts { K.faults sink.old ≤ K.faults sink.new }
{
    let items = running.trace().items();
    *tally = tally.count::<A>(items);
    print_trace::<A, K>(alloc, sink, items)?;
    running.forget_trace();
    Ok(())
}

// The same before the source is read again: unless a further line was read ahead.
pub(crate) fn write_before_reading<
    R: Runs,
    A: AppText<Input = R::Input, Output = R::Output>,
    K: Sink,
>(
    alloc: Global,
    running: &mut R,
    tally: &mut Tally,
    reader: &Reader,
    sink: &mut K,
) -> Result<(), WriteFault>
    requires { HasRoom tally.old (length (R.progress running.old).trace) }
    ensures ok { OnOk result (Waits reader.now running.old running.new tally.old tally.new (K.written sink.old) (K.written sink.new)
        ⊎ Writes R.follows R.progress (texts_of A.input_of A.input_text A.output_of A.output_text A.replies)
        running.old running.new tally.old tally.new (K.written sink.old) (K.written sink.new)) }
    ensures few { length reader.now.ahead ≤ 4096 }
    ensures played { OnOk result (R.played running.new ≡ R.played running.old) }
    ensures sound { OnOk result (R.sound running.old → R.sound running.new) }
    ensures err { OnErr result (GainedPrefix (K.written sink.old) (K.written sink.new)
        (trace_text A.input_text A.output_text (R.progress running.old).trace)) }
    ensures fault { IfErr result (HasWriteCause (K.faults sink.old) (K.faults sink.new)) }
    ensures unfailed { IsErrOf result WriteFault.Memory → K.faults sink.new ≡ K.faults sink.old }
    ensures unwanted { IsErrOf result WriteFault.Write → K.wants sink.new ≡ K.wants sink.old }
    ensures quiet { OnOk result ((K.faults sink.new ≡ K.faults sink.old) × (K.wants sink.new ≡ K.wants sink.old)) }
    ensures counts { K.faults sink.old ≤ K.faults sink.new }
{
    if is_line_ahead(reader) {
        return Ok(());
    }
    write_trace::<R, A, K>(alloc, running, tally, sink)
}
