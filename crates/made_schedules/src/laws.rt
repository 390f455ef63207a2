ghost use Rattle.std.specs.Prelude.{◌≡◌, ◌≢◌, ◌≤◌, ℕ, None, [], length};
ghost use Rattle.schedule_replay.specs.Replays.{replayed};
ghost use Rattle.stacks.specs.ClaimTexts.{claim_by, claim_text};
ghost use Rattle.stacks.specs.Plays.{IfFound};
ghost use Rattle.stacks.specs.Made.{makes_at};
ghost use Rattle.vst_base.specs.Stacks.{row_of};
ghost use Rattle.vst_base.specs.declared.net.Net.TheVariants as net;
ghost use Rattle.vst_base.specs.declared.stack.StackId.{StackId};
ghost use Rattle.vst_base.specs.declared.step.TheConstants.{MAX_STEPS};
ghost use Rattle.made_schedules.specs.MadeTexts.{made_counts, made_header, made_text, with_made};

use crate::each_stack::each_stack_has_lines;
use stacks::stacks_fit_their_rows;

/// A made schedule of any stack has as many steps as were asked for, and the network of each stack that sends packets allows all of
/// them.
pub fn made_schedules_are_allowed()
    ensures steps { (i : StackId) (seed steps : ℕ) → IfFound (makes_at (made_header i)) (λ a. length (a.made seed steps) ≡ steps) }
    ensures allowed { (i : StackId) (seed steps : ℕ) → (row_of i).net ≢ net.One
        → IfFound (makes_at (made_header i)) (λ a. a.plays.play.refused (a.made seed steps) ≡ None) }
{
    stacks_fit_their_rows();
    each_stack_has_lines();
}

/// A replay of the text of a made schedule comes to its end: no line of it is refused, what is written is the text of the claim that
/// the steps make, their trace and their image, and the counts are those of the steps.
pub fn made_schedules_are_replayed()
    ensures taken { (i : StackId) (seed steps : ℕ) → (row_of i).net ≢ net.One → steps ≤ MAX_STEPS
        → (replayed (made_text i seed steps)).refused ≡ None }
    ensures written { (i : StackId) (seed steps : ℕ) → (row_of i).net ≢ net.One → steps ≤ MAX_STEPS
        → (replayed (made_text i seed steps)).out
        ≡ with_made [] (λ a. claim_text a.plays.play (claim_by a.plays.play (a.made seed steps))) i }
    ensures counts { (i : StackId) (seed steps : ℕ) → (row_of i).net ≢ net.One → steps ≤ MAX_STEPS
        → (replayed (made_text i seed steps)).counts ≡ made_counts i seed steps }
{
    made_schedules_are_allowed();
    each_stack_has_lines();
}
