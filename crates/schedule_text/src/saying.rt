ghost use Rattle.std.specs.Prelude.{◌≡◌, ok_or};
ghost use Rattle.schedule_text.specs.Reading.{number_of, said_after, said_of};
ghost use Rattle.schedule_text.specs.SaidViews.{view_or_refusal};

use crate::line_word::LineWord;
use crate::said::Said;
use crate::words::{SPACE, number_of, word_named};
use line_reader::{Why, cut_at};
use vst_base::{Step, StepKind};

// The number that bytes spell, or the refusal of a line that has them for a number.
fn number_in(bytes: &[u8]) -> Result<u32, Why>
    ensures { result ≡ ok_or (number_of bytes.now) Why.Number }
{
    number_of(bytes).ok_or(Why::Number)
}

// What a line says after its word.
fn said_after(word: LineWord, rest: &[u8]) -> Result<Said<&[u8]>, Why>
    ensures { view_or_refusal result ≡ said_after word rest.now }
{
    match word {
        LineWord::Step(StepKind::In) => {
            let (number, text) = cut_at(rest, SPACE).ok_or(Why::UnknownWord)?;
            Ok(Said::Step(Step::In(number_in(number)?, text)))
        }
        LineWord::Step(StepKind::Deliver) => Ok(Said::Step(Step::Deliver(number_in(rest)?))),
        LineWord::Step(StepKind::Tick) => Ok(Said::Step(Step::Tick(number_in(rest)?))),
        LineWord::Step(StepKind::Dup) => Ok(Said::Step(Step::Dup(number_in(rest)?))),
        LineWord::Step(StepKind::Lose) => Ok(Said::Step(Step::Lose(number_in(rest)?))),
        LineWord::Step(StepKind::Crash) => Ok(Said::Step(Step::Crash(number_in(rest)?))),
        LineWord::Step(StepKind::Reboot) => Ok(Said::Step(Step::Reboot(number_in(rest)?))),
        LineWord::Act => Ok(Said::Act(number_in(rest)?)),
        LineWord::Stop => {
            let (number, second) = cut_at(rest, SPACE).ok_or(Why::UnknownWord)?;
            Ok(Said::Stop(number_in(number)?, number_in(second)?))
        }
    }
}

// What a step line says, by its word and its numbers. At an `Err` its first word is none of the nine, a space is missing, or a
// number is none.
pub(crate) fn said_of(line: &[u8]) -> Result<Said<&[u8]>, Why>
    ensures { view_or_refusal result ≡ said_of line.now }
{
    let (word, rest) = cut_at(line, SPACE).ok_or(Why::UnknownWord)?;
    let word = word_named(word).ok_or(Why::UnknownWord)?;
    said_after(word, rest)
}
