ghost use Rattle.std.specs.Prelude.{◌≡◌, ◌≢◌, ◌+◌, ◌<◌, ◌≤◌, ℕ, true, List, length, Some, Err, IfErr, IfOk, OnErr, OnOk};
ghost use Rattle.line_reader.specs.Outcomes.{HasReadCause};
ghost use Rattle.line_reader.specs.Readers.{HasRest};
ghost use Rattle.schedule_text.specs.Headers.{header_of};
ghost use Rattle.schedule_text.specs.Reading.{tells_next, step_of};
ghost use Rattle.schedule_text.specs.Streams.{HasHeaderCause, HeaderIsNear, ReadsHeader, ReadsStep, StepIsNear};
ghost use Rattle.vst_base.specs.declared.step.TheConstants.{MAX_STEPS};

use crate::headers::header_of;
use crate::reading::line_says;
use crate::skips::is_skipped;
use crate::{Header, Line, TextFault, text_fault};
use app_text::AppText;
use line_reader::{ReadFault, Reader, Why, next_line};
use outside::Source;
use std::alloc::Global;
use vst_base::Step;

/// Reads the header: the first line that is not skipped. A text without one is refused at the line after its last.
/// Whatever comes, at most 4,096 bytes were read past lines that are skipped.
pub fn read_header<S: Source>(reader: &mut Reader, source: &mut S) -> Result<Header, TextFault>
    ensures told { (rest : List ℕ) → HasRest reader.old (S.left source.old) rest
        → ReadsHeader reader.old reader.new (S.left source.new) rest result }
    ensures near { (rest : List ℕ) → HasRest reader.old (S.left source.old) rest
        → HeaderIsNear reader.old (S.left source.new) rest }
    ensures few { length reader.new.ahead ≤ 4096 }
    ensures header { IfOk result (λ h. header_of reader.new.line ≡ Some h) }
    ensures number { OnOk result ((reader.old.number < reader.new.number) × (reader.new.number ≤ reader.new.most)) }
    ensures stays { reader.old.ended ≡ true → reader.new.ended ≡ true }
    ensures kept { (reader.new.most ≡ reader.old.most) × (reader.new.events ≡ reader.old.events) }
    ensures fault { IfErr result (HasHeaderCause reader.old (S.faults source.old) (S.faults source.new)) }
    ensures quiet { result ≢ Err TextFault.Read → S.faults source.new ≡ S.faults source.old }
    ensures counts { S.faults source.old ≤ S.faults source.new }
{
    loop {
        match next_line(reader, source) {
            Ok(()) => {}
            Err(fault) => return Err(text_fault(reader, fault)),
        }
        if !is_skipped(reader.line()) {
            return match header_of(reader.line()) {
                Some(header) => Ok(header),
                None => Err(TextFault::Refused {
                    line: reader.number(),
                    why: Why::Header,
                }),
            };
        }
    }
}

/// Reads the next step after the header, and counts it as an event. Lines that are skipped before it are used. `End`
/// comes exactly where only such lines are left. Whatever comes, at most 4,096 bytes were read past those lines.
pub fn read_step<A: AppText, S: Source>(
    alloc: Global,
    reader: &mut Reader,
    source: &mut S,
) -> Result<Step<A::Input>, ReadFault>
    ensures told { (rest : List ℕ) → HasRest reader.old (S.left source.old) rest
        → ReadsStep A.input_of reader.old reader.new (S.left source.new) rest result }
    ensures near { (rest : List ℕ) → HasRest reader.old (S.left source.old) rest
        → StepIsNear A.input_of reader.old (S.left source.new) rest }
    ensures ahead { tells_next reader.old.ahead ≡ true → result ≢ Err ReadFault.Read }
    ensures unread { tells_next reader.old.ahead ≡ true → source.new ≡ source.old }
    ensures step { IfOk result (λ s. step_of A.input_of reader.new.line ≡ Some s) }
    ensures number { OnOk result ((reader.old.number < reader.new.number) × (reader.new.number ≤ reader.new.most)) }
    ensures events { OnOk result ((reader.new.events ≡ reader.old.events + 1) × (reader.new.events ≤ MAX_STEPS))
        × OnErr result (reader.new.events ≡ reader.old.events) }
    ensures kept { reader.new.most ≡ reader.old.most }
    ensures stays { reader.old.ended ≡ true → reader.new.ended ≡ true }
    ensures fault { IfErr result (HasReadCause reader.old (S.faults source.old) (S.faults source.new)) }
    ensures quiet { result ≢ Err ReadFault.Read → S.faults source.new ≡ S.faults source.old }
    ensures counts { S.faults source.old ≤ S.faults source.new }
{
    loop {
        next_line(reader, source)?;
        match line_says::<A>(alloc, reader.events(), reader.line())? {
            Line::Skipped => {}
            Line::IsStep(step) => {
                reader.count_event();
                return Ok(step);
            }
            Line::Refused(why) => return Err(reader.refuse(why)),
        }
    }
}
