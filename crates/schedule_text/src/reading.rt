ghost use Rattle.std.specs.Prelude.{◌≡◌, IfOk};
ghost use Rattle.schedule_text.specs.Reading.{line_of, line_says, step_or_refusal, step_said};
ghost use Rattle.schedule_text.specs.SaidViews.{said_view};

use crate::Line;
use crate::said::Said;
use crate::saying::said_of;
use crate::skips::is_skipped;
use app_text::{AppText, TextFault};
use line_reader::Why;
use std::alloc::{AllocError, Global};
use vst_base::{MAX_STEPS, Step};

/// The greatest number of lines of a schedule.
pub const MAX_LINES: u32 = 2_000_000;

// The step that is said, once the text of an input is read, or why there is none.
fn step_said<A: AppText>(alloc: Global, said: Said<&[u8]>) -> Result<Line<A::Input>, AllocError>
    ensures { IfOk result (λ l. l ≡ line_of (step_said A.input_of (said_view said.entry))) }
{
    match said {
        Said::Step(Step::In(n, text)) => match A::read_input(alloc, text) {
            Ok(input) => Ok(Line::IsStep(Step::In(n, input))),
            Err(TextFault::NotText) => Ok(Line::Refused(Why::Text)),
            Err(TextFault::Memory) => Err(AllocError),
        },
        Said::Step(Step::Deliver(k)) => Ok(Line::IsStep(Step::Deliver(k))),
        Said::Step(Step::Tick(n)) => Ok(Line::IsStep(Step::Tick(n))),
        Said::Step(Step::Dup(k)) => Ok(Line::IsStep(Step::Dup(k))),
        Said::Step(Step::Lose(k)) => Ok(Line::IsStep(Step::Lose(k))),
        Said::Step(Step::Crash(n)) => Ok(Line::IsStep(Step::Crash(n))),
        Said::Step(Step::Reboot(n)) => Ok(Line::IsStep(Step::Reboot(n))),
        Said::Act(_) | Said::Stop(_, _) => Ok(Line::Refused(Why::NotThisNet)),
    }
}

// A line that is not skipped, after so many events: its step, or why it is refused.
fn step_line<A: AppText>(
    alloc: Global,
    events: u32,
    line: &[u8],
) -> Result<Line<A::Input>, AllocError>
    ensures { IfOk result (λ l. l ≡ line_of (step_or_refusal A.input_of events line.now)) }
{
    let said = match said_of(line) {
        Ok(said) => said,
        Err(why) => return Ok(Line::Refused(why)),
    };
    if events >= MAX_STEPS {
        return Ok(Line::Refused(Why::TooManyEvents));
    }
    step_said::<A>(alloc, said)
}

/// What a line after the header says that is neither too long nor one too many, after so many events.
pub fn line_says<A: AppText>(
    alloc: Global,
    events: u32,
    line: &[u8],
) -> Result<Line<A::Input>, AllocError>
    ensures { IfOk result (λ l. l ≡ line_says A.input_of events line.now) }
{
    if is_skipped(line) {
        return Ok(Line::Skipped);
    }
    step_line::<A>(alloc, events, line)
}
