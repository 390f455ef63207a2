ghost use Rattle.std.specs.Prelude.{◌≡◌, ◌↔◌, ℕ, List, None, Ok, Some};
ghost use Rattle.claim_verdicts.specs.declared.verdict.Verdict.TheVariants.{No, Yes};
ghost use Rattle.schedule_replay.specs.Replays.{replayed};
ghost use Rattle.stacks.specs.Checks.{IsNotPermitted, IsPermitted, checked};
ghost use Rattle.stacks.specs.Plays.{IfFound};
ghost use Rattle.stacks.specs.Table.{kind_at};
ghost use Rattle.trace_check.specs.Permitted.{IsWithinLimits, stack_in};
ghost use Rattle.trace_check.specs.Spelled.{IsSpelledKind};
ghost use Rattle.vst_base.specs.Stacks.{row_of};
ghost use Rattle.vst_base.specs.declared.stack.StackId.{StackId};

use schedule_replay::replays_are_explained;
use schedule_text::headers_follow_the_rows;
use stacks::stacks_fit_their_rows;
use vst_base::stacks_have_one_word;

/// The inputs and outputs of each stack are spelled, and stay so: each value that is read has one text, which is read back and fits
/// on a line; what the handlers or the machine of the stack answer to inputs that have texts has texts; and with a transformer the
/// schedule within one whose inputs have texts is such a schedule again, of no more events, and no longer where no packet is lost.
pub fn stacks_are_spelled()
    ensures { (i : StackId) → IfFound (kind_at (row_of i).net i) IsSpelledKind }
{}

/// A check of a text says yes exactly where the text is a claim that its image explains: on a cluster its trace is linearizable by
/// its order; on a primary and its backup one machine explains its trace, and its image is what that machine took; on a machine
/// alone its trace has each command of its image with the machine's answer; and on the lock server and the mirror the network
/// allows the schedule, and clients then see exactly the trace. Where the check says no, the text is a claim that its image does not
/// explain. Nothing is asked of the text.
pub fn permitted_claims_are_explained()
    ensures explained { (stack : StackId) → (bytes : List ℕ) → (checked stack bytes ≡ Ok Yes) ↔ IsPermitted stack bytes }
    ensures refuted { (stack : StackId) → (bytes : List ℕ) (condition line : ℕ) → checked stack bytes ≡ Ok (No condition line)
        → IsNotPermitted stack bytes }
{
    stacks_have_one_word();
    headers_follow_the_rows();
    stacks_fit_their_rows();
    stacks_are_spelled();
}

/// A check of what a replay wrote is permitted, on every stack: where no line of a schedule is refused, what is written is read as the
/// claim of its trace and its image, and that the image explains the trace is what a check's yes means. On a network that stops nodes
/// this is said of at most 8,000,000 lines, and on one that loses packets of an image of at most 1,000,000, since a check reads no more.
pub fn replays_are_permitted()
    ensures { (bytes : List ℕ) (s : StackId) → stack_in bytes ≡ Some s → (replayed bytes).refused ≡ None
        → IsWithinLimits s (replayed bytes) → checked s (replayed bytes).out ≡ Ok Yes }
{
    headers_follow_the_rows();
    stacks_fit_their_rows();
    stacks_are_spelled();
    permitted_claims_are_explained();
    replays_are_explained();
}
