ghost use Rattle.std.specs.Prelude.{◌≡◌, ◌≢◌, ◌+◌, ◌<◌, ◌≤◌, ℕ, List, length, true, false, None, Some, Ok, IfOk, OnOk};
ghost use Rattle.net_semantics.specs.Taking.{GrowsBy};
ghost use Rattle.outside.specs.Counting.{Rose};
ghost use Rattle.line_reader.specs.Readers.{HasRest};
ghost use Rattle.schedule_text.specs.Reading.{tells_next};
ghost use Rattle.schedule_text.specs.Streams.{StepIsNear};
ghost use Rattle.vst_base.specs.declared.step.TheConstants.{MAX_STEPS};
ghost use Rattle.vst_base.specs.declared.step.Step.{Step};
ghost use Rattle.vst_base.specs.declared.step.Item.{Item};
ghost use Rattle.schedule_replay.specs.declared.halt.Halt.{Halt};
ghost use Rattle.xform_stack.specs.Running.{HasRun};
ghost use Rattle.schedule_replay.specs.Playing.{TookStep};
ghost use Rattle.schedule_replay.specs.Replaying.{why_of};

use crate::halt::Halt;
use app_text::AppText;
use net_semantics::StepFault;
use outside::Source;
use schedule_text::{ReadFault, Reader, Why, read_step};
use std::alloc::{AllocError, Global};
use vst_base::StepRefusal;
use xform_stack::Runs;

// A world's refusal as a line's.
fn why_of(refusal: StepRefusal) -> Why
    ensures { result ≡ why_of refusal }
{
    match refusal {
        StepRefusal::NotThisNet => Why::NotThisNet,
        StepRefusal::NoSuchNode => Why::NoSuchNode,
        StepRefusal::NoInputHere => Why::NoInputHere,
        StepRefusal::NodeDown => Why::NodeDown,
        StepRefusal::NodeUp => Why::NodeUp,
        StepRefusal::NoCopy => Why::NoCopy,
        StepRefusal::NotFirst => Why::NotFirst,
        StepRefusal::NodeBusy => Why::NodeBusy,
        StepRefusal::NodeIdle => Why::NodeIdle,
        StepRefusal::PairUsed => Why::PairUsed,
    }
}

// Reads the next step and takes it, or says where the steps come to their end, which changes nothing. Whatever comes, at most 4,096
// bytes were read past lines that say no step.
pub(crate) fn take_step<R: Runs, A: AppText<Input = R::Input, Output = R::Output>, S: Source>(
    alloc: Global,
    running: &mut R,
    reader: &mut Reader,
    source: &mut S,
) -> Result<Option<Halt>, AllocError>
    requires sound { R.sound running.old }
    requires counted { (R.progress running.old).taken ≤ reader.old.events }
    ensures took { IfOk result (λ answer. (ss : List (Step R.Input)) (gone : List (Item R.Input R.Output))
        → HasRun (R.played running.old) R.follows R.progress ss gone running.old
        → TookStep (R.played running.old) R.follows R.progress A.input_of running.new ss gone reader.old reader.new (S.left source.old)
        (S.left source.new) answer) }
    ensures near { (rest : List ℕ) → HasRest reader.old (S.left source.old) rest
        → StepIsNear A.input_of reader.old (S.left source.new) rest }
    ensures unread { tells_next reader.old.ahead ≡ true → source.new ≡ source.old }
    ensures played { R.played running.new ≡ R.played running.old }
    ensures taken { result ≡ Ok None → (R.progress running.new).taken ≡ (R.progress running.old).taken + 1 }
    ensures few { result ≡ Ok None → (R.progress running.new).taken ≤ MAX_STEPS }
    ensures grows { result ≡ Ok None → GrowsBy (length (R.progress running.old).trace) (length (R.progress running.new).trace) }
    ensures sound { OnOk result (R.sound running.new) }
    ensures events { result ≡ Ok None → reader.new.events ≡ reader.old.events + 1 }
    ensures number { result ≡ Ok None → (reader.old.number < reader.new.number) × (reader.new.number ≤ reader.new.most) }
    ensures most { reader.new.most ≡ reader.old.most }
    ensures unchanged { (halt : Halt) → result ≡ Ok (Some halt) → running.new ≡ running.old }
    ensures read { result ≡ Ok (Some Halt.Read) → Rose (S.faults source.old) (S.faults source.new) }
    ensures going { result ≡ Ok (Some Halt.Read) → reader.old.ended ≡ false }
    ensures ahead { tells_next reader.old.ahead ≡ true → result ≢ Ok (Some Halt.Read) }
    ensures stays { reader.old.ended ≡ true → reader.new.ended ≡ true }
    ensures quiet { result ≢ Ok (Some Halt.Read) → S.faults source.new ≡ S.faults source.old }
    ensures counts { S.faults source.old ≤ S.faults source.new }
{
    match read_step::<A, S>(alloc, reader, source) {
        Ok(step) => match running.step(&step) {
            Ok(()) => Ok(None),
            Err(StepFault::Memory) => Err(AllocError),
            Err(StepFault::Refused(why)) => Ok(Some(Halt::Refused(reader.number(), why_of(why)))),
        },
        Err(ReadFault::End) => Ok(Some(Halt::End)),
        Err(ReadFault::Read) => Ok(Some(Halt::Read)),
        Err(ReadFault::Refused { line, why }) => Ok(Some(Halt::Refused(line, why))),
        Err(ReadFault::Memory) => Err(AllocError),
    }
}
