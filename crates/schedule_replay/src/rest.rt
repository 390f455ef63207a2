ghost use Rattle.std.specs.Prelude.{◌≡◌, ◌≢◌, ◌≤◌, ℕ, List, [], Err, IfErr};
ghost use Rattle.line_reader.specs.Readers.{HasRest};
ghost use Rattle.xform_stack.specs.Running.{HasRun};
ghost use Rattle.schedule_replay.specs.Outcomes.{ComesTo, HasCause, KeepsSink, KeptUp};
ghost use Rattle.schedule_replay.specs.Rests.{stack_so_far, stack_whole};
ghost use Rattle.stacks.specs.Plays.{image_of, play_of, texts_of};

use crate::faults::write_fault;
use crate::finish::finish;
use crate::halt::Halt;
use crate::play::play;
use crate::tally::Tally;
use crate::{Done, ReplayFault};
use app_text::AppText;
use outside::{Sink, Source};
use schedule_text::{Header, Printed, Reader};
use std::alloc::Global;
use xform_stack::Runs;

// Replays what stands after a header, where no step was taken yet. Below the trace stand this header, if there is one, and
// the image.
pub(crate) fn replay_rest<
    R: Runs<Line = L>,
    A: AppText<Input = R::Input, Output = R::Output>,
    L: Printed<A> + Drop,
    S: Source,
    K: Sink,
>(
    alloc: Global,
    mut running: R,
    below: Option<Header>,
    reader: &mut Reader,
    source: &mut S,
    sink: &mut K,
) -> Result<Done, ReplayFault>
    requires started { HasRun (R.played running) R.follows R.progress [] [] running }
    requires sound { R.sound running }
    ensures told { (rest : List ℕ) → HasRest reader.old (S.left source.old) rest
        → ComesTo (stack_whole (play_of (R.played running) (texts_of A.input_of A.input_text A.output_of A.output_text A.replies)
        (image_of below L.text)) reader.old)
        (stack_so_far (play_of (R.played running) (texts_of A.input_of A.input_text A.output_of A.output_text A.replies)
        (image_of below L.text)) reader.old)
        reader.old.number rest (S.left source.new) (K.written sink.old) (K.written sink.new) result }
    ensures kept_up { (rest : List ℕ) → HasRest reader.old (S.left source.old) rest
        → KeptUp (stack_so_far (play_of (R.played running) (texts_of A.input_of A.input_text A.output_of A.output_text A.replies)
        (image_of below L.text)) reader.old) rest (S.left source.new) (K.written sink.old) (K.written sink.new) }
    ensures fault { IfErr result (HasCause reader.old.ended (S.faults source.old) (S.faults source.new) (K.faults sink.old)
        (K.faults sink.new)) }
    ensures reads_quiet { result ≢ Err ReplayFault.Read → S.faults source.new ≡ S.faults source.old }
    ensures quiet { KeepsSink (K.faults sink.old) (K.faults sink.new) (K.wants sink.old) (K.wants sink.new) result }
    ensures reads { S.faults source.old ≤ S.faults source.new }
    ensures writes { K.faults sink.old ≤ K.faults sink.new }
{
    let mut tally = Tally {
        inputs: 0,
        outputs: 0,
        replies: 0,
    };
    match play::<R, A, S, K>(alloc, &mut running, &mut tally, reader, source, sink) {
        Err(fault) => Err(write_fault(fault)),
        Ok(Halt::Read) => Err(ReplayFault::Read),
        Ok(Halt::Refused(line, why)) => Err(ReplayFault::Refused { line, why }),
        Ok(Halt::End) => {
            let events = running.taken();
            let finished = running.finish();
            let Ok(ran) = finished else {
                return Err(ReplayFault::Memory);
            };
            match finish::<A, L, K>(alloc, below, ran.image.lines(), events, &tally, sink) {
                Ok(done) => Ok(done),
                Err(fault) => Err(write_fault(fault)),
            }
        }
    }
}
