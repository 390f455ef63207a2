ghost use Rattle.std.specs.Prelude.{◌≡◌, ◌≢◌, ◌+◌, ◌≤◌, ℕ, true, false, List, [], Ok, IfErr, IfOk, IsErrOf, OnOk};
ghost use Rattle.line_reader.specs.Lines.{lines_of};
ghost use Rattle.line_reader.specs.Readers.{HasRest};
ghost use Rattle.outside.specs.Counting.{Rose};
ghost use Rattle.outside.specs.Wholes.{GainedPrefix};
ghost use Rattle.schedule_text.specs.Schedules.{script};
ghost use Rattle.schedule_text.specs.Sending.{HasWriteCause};
ghost use Rattle.xform_stack.specs.Running.{HasRun};
ghost use Rattle.schedule_replay.specs.Outcomes.{KeptUp};
ghost use Rattle.schedule_replay.specs.Playing.{Halted};
ghost use Rattle.schedule_replay.specs.Replaying.{replayed_script};
ghost use Rattle.schedule_replay.specs.Rests.{stack_so_far};
ghost use Rattle.stacks.specs.Plays.{ImageTexts, play_of, texts_of};

use crate::halt::Halt;
use crate::taking::take_step;
use crate::tally::Tally;
use crate::writing::{write_before_reading, write_trace};
use app_text::AppText;
use outside::{Sink, Source};
use schedule_text::{Reader, WriteFault};
use std::alloc::Global;
use xform_stack::Runs;

// Plays the steps of a schedule after its header up to where they end. What clients saw is written before the source is read again,
// and where the steps end.
pub(crate) fn play<R: Runs, A: AppText<Input = R::Input, Output = R::Output>, S: Source, K: Sink>(
    alloc: Global,
    running: &mut R,
    tally: &mut Tally,
    reader: &mut Reader,
    source: &mut S,
    sink: &mut K,
) -> Result<Halt, WriteFault>
    requires sound { R.sound running.old }
    requires started { HasRun (R.played running.old) R.follows R.progress [] [] running.old }
    requires tally { tally.old ≡ record { inputs = 0; outputs = 0; replies = 0 } }
    ensures halted { IfOk result (λ halt. (i : ImageTexts R.Line)
        → Halted (R.played running.old) R.follows R.progress (texts_of A.input_of A.input_text A.output_of A.output_text A.replies) i
        running.new tally.new reader.old reader.new (S.left source.old) (S.left source.new) (K.written sink.old) (K.written sink.new)
        halt) }
    ensures front { IfErr result (λ _. (i : ImageTexts R.Line) (rest : List ℕ) → HasRest reader.old (S.left source.old) rest
        → GainedPrefix (K.written sink.old) (K.written sink.new)
        (replayed_script (play_of (R.played running.old) (texts_of A.input_of A.input_text A.output_of A.output_text A.replies) i) true
        (script reader.old.most A.input_of (reader.old.number + 1) reader.old.events (lines_of rest))).out) }
    ensures kept_up { (i : ImageTexts R.Line) (rest : List ℕ) → HasRest reader.old (S.left source.old) rest → KeptUp
        (stack_so_far (play_of (R.played running.old) (texts_of A.input_of A.input_text A.output_of A.output_text A.replies) i) reader.old)
        rest (S.left source.new) (K.written sink.old) (K.written sink.new) }
    ensures fault { IfErr result (HasWriteCause (K.faults sink.old) (K.faults sink.new)) }
    ensures read { result ≡ Ok Halt.Read → Rose (S.faults source.old) (S.faults source.new) }
    ensures going { result ≡ Ok Halt.Read → reader.old.ended ≡ false }
    ensures reads_quiet { result ≢ Ok Halt.Read → S.faults source.new ≡ S.faults source.old }
    ensures unfailed { IsErrOf result WriteFault.Memory → K.faults sink.new ≡ K.faults sink.old }
    ensures unwanted { IsErrOf result WriteFault.Write → K.wants sink.new ≡ K.wants sink.old }
    ensures quiet { OnOk result ((K.faults sink.new ≡ K.faults sink.old) × (K.wants sink.new ≡ K.wants sink.old)) }
    ensures reads { S.faults source.old ≤ S.faults source.new }
    ensures writes { K.faults sink.old ≤ K.faults sink.new }
    ensures played { OnOk result (R.played running.new ≡ R.played running.old) }
{
    loop {
        write_before_reading::<R, A, K>(alloc, running, tally, reader, sink)?;
        if let Some(halt) = take_step::<R, A, S>(alloc, running, reader, source)? {
            // What stands before a failed read was written before that read.
            if !halt.is_failed_read() {
                write_trace::<R, A, K>(alloc, running, tally, sink)?;
            }
            return Ok(halt);
        }
    }
}
