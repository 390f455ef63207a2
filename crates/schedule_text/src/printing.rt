ghost use Rattle.std.specs.Prelude.{◌≡◌, ℕ, ◌∷◌, ◌++◌, List, OnOk};
ghost use Rattle.schedule_text.specs.Printing.{as_line, item_text, numbered, refusal_line, step_text};

use crate::numbers::push_number;
use crate::words::{SPACE, word_of};
use app_text::AppText;
use line_reader::{NEWLINE, Why};
use std::alloc::AllocError;
use vst_base::{Item, Node, Step};

// Adds a word, a space and a number.
fn push_numbered(out: &mut Vec<u8>, word: &[u8], n: u32) -> Result<(), AllocError>
    ensures { OnOk result (out.new.items ≡ out.old.items ++ numbered word.now n) }
{
    out.extend_from_slice(word)?;
    out.push(SPACE)?;
    push_number(out, n)
}

/// What has a line of its own, where an application says how its inputs and outputs are spelled.
pub trait Printed<A: AppText> {
    /// How it is spelled.
    ghost text: { Self → List ℕ };

    /// Adds its text at the end, without a newline. At an `Err` it may have added a part.
    fn push_text(&self, out: &mut Vec<u8>) -> Result<(), AllocError>
        ensures { OnOk result (out.new.items ≡ out.old.items ++ text self.now) };

    /// Adds its line at the end. At an `Err` it may have added a part.
    fn push_line(&self, out: &mut Vec<u8>) -> Result<(), AllocError>
        ensures { OnOk result (out.new.items ≡ out.old.items ++ as_line (text self.now)) }
    {
        self.push_text(out)?;
        out.push(NEWLINE)?;
        Ok(())
    }
}

impl<A: AppText> Printed<A> for Step<A::Input> {
    ghost text = { step_text A.input_text };

    fn push_text(&self, out: &mut Vec<u8>) -> Result<(), AllocError> {
        let word = word_of(self.kind());
        match self {
            Step::In(n, input) => {
                push_numbered(out, word, *n)?;
                out.push(SPACE)?;
                A::print_input(input, out)
            }
            Step::Deliver(k) => push_numbered(out, word, *k),
            Step::Tick(n) => push_numbered(out, word, *n),
            Step::Dup(k) => push_numbered(out, word, *k),
            Step::Lose(k) => push_numbered(out, word, *k),
            Step::Crash(n) => push_numbered(out, word, *n),
            Step::Reboot(n) => push_numbered(out, word, *n),
        }
    }
}

impl<A: AppText> Printed<A> for Item<A::Input, A::Output> {
    ghost text = { item_text A.input_text A.output_text };

    fn push_text(&self, out: &mut Vec<u8>) -> Result<(), AllocError> {
        match self {
            Item::Input(n, input) => {
                push_numbered(out, b"in", u32::from(n.index()))?;
                out.push(SPACE)?;
                A::print_input(input, out)
            }
            Item::Output(n, output) => {
                push_numbered(out, b"out", u32::from(n.index()))?;
                out.push(SPACE)?;
                A::print_output(output, out)
            }
        }
    }
}

/// Adds the line that names a refusal.
pub fn push_refusal(out: &mut Vec<u8>, line: u32, why: Why) -> Result<(), AllocError>
    ensures { OnOk result (out.new.items ≡ out.old.items ++ refusal_line line why) }
{
    push_numbered(out, b"line", line)?;
    out.extend_from_slice(b": ")?;
    out.extend_from_slice(why.words())?;
    out.push(NEWLINE)?;
    Ok(())
}
