ghost use Rattle.std.specs.Prelude.{◌≡◌, ◌≢◌, ◌+◌, ◌<◌, List, [], ◌∷◌, ◌++◌, length, IfErr, IfOk, OnOk};
ghost use Rattle.net_semantics.specs.Taking.{GrowsBy};
ghost use Rattle.vst_base.specs.declared.step.Item.{Item};
ghost use Rattle.vst_base.specs.declared.step.Step.{Step};
ghost use Rattle.vst_base.specs.declared.step.TheConstants.{MAX_STEPS};
ghost use Rattle.xform_stack.specs.Running.{HasRun, IsRunAnswer, Progress};
ghost use Rattle.xform_stack.specs.SystemLaws.{IsCausal};
ghost use Rattle.xform_stack.specs.Systems.{Played};

use crate::Ran;
use net_semantics::{StepFault, Trace};
use std::alloc::AllocError;
use vst_base::Step;

/// A schedule that is run one step at a time, and of which an image is made.
pub trait Runs: Drop {
    type Input: Drop;

    type Output: Drop;

    /// A line of the image.
    type Line: Drop;

    /// What running a schedule comes to.
    ghost played: { Self → Played Self.Input Self.Output Self.Line };

    /// What clients saw since it was last cleared, and how many steps were taken.
    ghost progress: { Self → Progress Self.Input Self.Output };

    /// Whether what is kept is what these steps make.
    ghost follows: { Self → List (Step Self.Input) → Type 0 };

    /// What holds of it when it is made and after each step that doesn't answer want of memory.
    ghost sound: { Self → Type 0 };

    /// Takes one more step, or says which refusal it meets. A refused step changes nothing.
    /// After want of memory the running schedule is given up.
    fn step(&mut self, step: &Step<Self::Input>) -> Result<(), StepFault>
        requires sound { sound self.old }
        requires steps { (progress self.old).taken < MAX_STEPS }
        ensures refused { (ss : List (Step Self.Input)) (gone : List (Item Self.Input Self.Output))
            → HasRun (played self.old) follows progress ss gone self.old
            → IsRunAnswer result (length ss) ((played self.old).refused (ss ++ step.now ∷ [])) }
        ensures unchanged { IfErr result (λ why. why ≢ StepFault.Memory → self.new ≡ self.old) }
        ensures next { OnOk result ((ss : List (Step Self.Input)) (gone : List (Item Self.Input Self.Output))
            → HasRun (played self.old) follows progress ss gone self.old
            → HasRun (played self.old) follows progress (ss ++ step.now ∷ []) gone self.new) }
        ensures played { played self.new ≡ played self.old }
        ensures grows { OnOk result (GrowsBy (length (progress self.old).trace) (length (progress self.new).trace)) }
        ensures taken { OnOk result ((progress self.new).taken ≡ (progress self.old).taken + 1) }
        ensures sound { OnOk result (sound self.new) };

    /// What clients saw since it was last cleared.
    fn trace(&self) -> &Trace<Self::Input, Self::Output>
        ensures { result.now ≡ (progress self.now).trace };

    /// Clears what clients saw so far: the trace begins anew. Nothing else changes.
    fn forget_trace(&mut self)
        ensures forgets { progress self.new ≡ record (progress self.old) { trace = [] } }
        ensures follows { (ss : List (Step Self.Input)) → follows self.old ss → follows self.new ss }
        ensures played { played self.new ≡ played self.old }
        ensures sound { sound self.old → sound self.new };

    /// How many steps were taken.
    fn taken(&self) -> u32
        ensures { result ≡ (progress self.now).taken };

    /// What clients saw since it was last cleared, and the image of the steps so far.
    fn finish(self) -> Result<Ran<Self::Input, Self::Output, Self::Line>, AllocError>
        ensures trace { IfOk result (λ ran. ran.trace ≡ (progress self).trace) }
        ensures image { IfOk result (λ ran. (ss : List (Step Self.Input)) (gone : List (Item Self.Input Self.Output))
            → HasRun (played self) follows progress ss gone self → ran.image ≡ (played self).image ss) };

    /// What follows changes nothing of what the steps before it came to.
    ghost causal: { (r : Self) → IsCausal (played r) };
}
