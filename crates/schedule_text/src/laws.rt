ghost use Rattle.std.specs.Prelude.{◌≡◌, ℕ, ◌+◌, ◌^◌, ◌<◌, ◌≤◌, List, length, map, None, Some};
ghost use Rattle.std.specs.Fmt.{decimal};
ghost use Rattle.line_reader.specs.Lines.{lines_of};
ghost use Rattle.schedule_text.specs.Schedules.{script};
ghost use Rattle.schedule_text.specs.Headers.{IsBy, IsHeader, header_of, header_text};
ghost use Rattle.vst_base.specs.Stacks.{row_of};
ghost use Rattle.vst_base.specs.declared.stack.StackId.{StackId as SpecId};
ghost use Rattle.schedule_text.specs.declared.header.Header.{Header};
ghost use Rattle.schedule_text.specs.Printing.{step_text, steps_text};
ghost use Rattle.schedule_text.specs.Reading.{step_of};
ghost use Rattle.schedule_text.specs.Spellable.{AreSpellable, IsSpellable, numbered_steps};
ghost use Rattle.schedule_text.specs.Words.{number_up_to};
ghost use Rattle.vst_base.specs.declared.step.TheConstants.{MAX_STEPS};

use app_text::AppText;
use vst_base::{Net, StackId, Step};

/// Up to any limit of 64 bits each number has one spelling, its decimal digits.
pub fn numbers_have_one_spelling()
    ensures reads_back { (most n : ℕ) → most < 2 ^ 64 → n ≤ most → number_up_to most (decimal n) ≡ Some n }
    ensures one_spelling { (most : ℕ) (bs : List ℕ) (n : ℕ) → most < 2 ^ 64 → number_up_to most bs ≡ Some n → bs ≡ decimal n }
{}

/// The text of a step is read as the step, where its number is in range and its input has a text, as each that is
/// printed has. The text of steps is a line for each, and within the limits these lines are read as the steps.
pub fn steps_read_back<A: AppText>()
    ensures step { (s : Step A.Input) → IsSpellable A.is_input s → step_of A.input_of (step_text A.input_text s) ≡ Some s }
    ensures lines { (ss : List (Step A.Input)) → AreSpellable A.is_input A.input_text ss
        → lines_of (steps_text A.input_text ss) ≡ map (λ s. step_text A.input_text s) ss }
    ensures script { (most n e : ℕ) (ss : List (Step A.Input)) → AreSpellable A.is_input A.input_text ss → n + length ss ≤ most + 1
        → e + length ss ≤ MAX_STEPS
        → script most A.input_of n e (lines_of (steps_text A.input_text ss)) ≡ record { steps = numbered_steps n ss; fault = None } }
{}

/// The headers that there are: each stack on its network, on as many nodes as it runs on.
pub fn headers_follow_the_rows()
    ensures each_row { (i : SpecId) (h : Header) → IsBy (row_of i) h → IsHeader h }
    ensures own_row { (h : Header) → IsHeader h → IsBy (row_of h.stack) h }
{}

/// Each header that there is has one spelling, its text. No other line is read as a header.
pub fn headers_read_back()
    ensures reads_back { (h : Header) → IsHeader h → header_of (header_text h) ≡ Some h }
    ensures one_spelling { (line : List ℕ) (h : Header) → header_of line ≡ Some h → IsHeader h × (line ≡ header_text h) }
{}
