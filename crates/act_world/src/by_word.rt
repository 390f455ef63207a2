ghost use Rattle.std.specs.Prelude.{◌≡◌, ◌≢◌, List, ◌+◌, ◌<◌, [], ◌∷◌, ◌++◌, length, IfErr, IfOk, OnOk};
ghost use Rattle.vst_base.specs.declared.step.TheConstants.{MAX_STEPS};
ghost use Rattle.net_semantics.specs.Steps.{IsAnswer};
ghost use Rattle.act_network.specs.ActRefusals.{act_refusal};
ghost use Rattle.act_network.specs.ActSteps.{act_next};
ghost use Rattle.act_network.specs.Words.{left_by};
ghost use Rattle.act_world.specs.ActViews.{ForShownAct, IsSoundActBy, ShowsAct};
ghost use Rattle.act_world.specs.ByWords.{AnswersWordBy, HasFollowedWords, LeavesSo};

use crate::refusals::place;
use crate::{ActWorld, LeavesByActs};
use act_network::ActStep;
use handler_trait::Rebootable;
use net_semantics::StepFault;
use std::alloc::AllocError;
use vst_base::Node;

impl<H: Rebootable, D: LeavesByActs<H>> ActWorld<H, D> {
    /// Takes one step as `step` does, where a word says what a stop leaves of the areas. What is left is moved out of them.
    pub fn step_by_word(&mut self, step: ActStep<H::Input, D::Word>) -> Result<(), StepFault>
        requires sound { IsSoundActBy H.Rebootable self.old }
        requires steps { self.old.taken < MAX_STEPS }
        ensures refused { ForShownAct self.old (λ w. IsAnswer result (act_refusal (H.meaning self.old.handlers) w (left_by D.by_word w step))) }
        ensures unchanged { IfErr result (λ why. why ≢ StepFault.Memory → self.new ≡ self.old) }
        ensures next { OnOk result (ForShownAct self.old (λ w. ShowsAct self.new
            (act_next (H.meaning self.old.handlers) (H.recovery self.old.handlers) D.disks w (left_by D.by_word w step)))) }
        ensures taken { OnOk result (self.new.taken ≡ self.old.taken + 1) }
        ensures handlers { self.new.handlers ≡ self.old.handlers }
        ensures sound { OnOk result (IsSoundActBy H.Rebootable self.new) }
        ensures follows { OnOk result ((ss : List (ActStep H.Input D.Word)) → HasFollowedWords H.Rebootable D.disks D.by_word self.old ss
            → HasFollowedWords H.Rebootable D.disks D.by_word self.new (ss ++ step ∷ [])) }
    {
        self.take_by_word(step)
    }

    fn take_by_word(&mut self, step: ActStep<H::Input, D::Word>) -> Result<(), StepFault>
        requires sound { IsSoundActBy H.Rebootable self.old }
        requires steps { self.old.taken < MAX_STEPS }
        ensures { AnswersWordBy H.Rebootable D.disks D.by_word step self.old self.new result }
    {
        match step {
            ActStep::In(n, input) => self.take(ActStep::In(n, input)),
            ActStep::Deliver(k) => self.take(ActStep::Deliver(k)),
            ActStep::Tick(n) => self.take(ActStep::Tick(n)),
            ActStep::Act(n) => self.take(ActStep::Act(n)),
            ActStep::Dup(k) => self.take(ActStep::Dup(k)),
            ActStep::Lose(k) => self.take(ActStep::Lose(k)),
            ActStep::Stop(n, word) => self.take_stop_by(n, &word),
            ActStep::Reboot(n) => self.take(ActStep::Reboot(n)),
        }
    }

    // A stop.
    fn take_stop_by(&mut self, n: u32, word: &D::Word) -> Result<(), StepFault>
        requires sound { IsSoundActBy H.Rebootable self.old }
        requires steps { self.old.taken < MAX_STEPS }
        ensures { AnswersWordBy H.Rebootable D.disks D.by_word (ActStep.Stop n word.now) self.old self.new result }
    {
        let node = self.to_stop(n)?;
        let left = self.leave(node, word)?;
        self.stop(node, left)?;
        self.taken += 1;
        Ok(())
    }

    // What the word leaves of the node's areas.
    fn leave(&mut self, node: Node, word: &D::Word) -> Result<D::Left, AllocError>
        requires { node < length self.old.nodes }
        ensures leaves { IfOk result (LeavesSo D.disks node self.old self.new (λ disk. D.by_word disk word.now)) }
        ensures handlers { self.new.handlers ≡ self.old.handlers }
    {
        let at = &mut self.nodes[place(node)];
        self.disks.leave(self.alloc, &mut at.disk, word)
    }
}
