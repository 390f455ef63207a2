ghost use Rattle.std.specs.Prelude.{◌≡◌, ◌≢◌, ◌+◌, ◌<◌, List, [], ◌∷◌, ◌++◌, length, IfErr, IfSome, OnOk};
ghost use Rattle.net_semantics.specs.Steps.{IsAnswer, items_of, refusal_of};
ghost use Rattle.net_semantics.specs.Taking.{GrowsBy};
ghost use Rattle.net_semantics.specs.Worlds.{copies, ends};
ghost use Rattle.vst_base.specs.declared.step.Step.{Step};
ghost use Rattle.vst_base.specs.declared.step.TheConstants.{MAX_STEPS};
ghost use Rattle.xform_stack.specs.Running.{HasTaken, Progress};
ghost use Rattle.xform_stack.specs.Systems.{System, world_of};

use handler_trait::Handlers;
use net_semantics::{StepFault, Trace};
use vst_base::{Net, Node, Step};

/// A network whose nodes take the steps of a schedule one by one. What it tells of them is said of the world after each schedule
/// that it has followed.
pub trait Network<H: Handlers>: Drop {
    /// What a node that stops keeps.
    type Kept: Drop;

    /// The handlers that its nodes run. Where its packets are bytes, those within, whose messages the bytes are.
    ghost within: { Self → H };

    /// Those handlers on this network.
    ghost system: { Self → System H.State Self.Kept H.Input H.Output H.Msg };

    /// What clients saw since it was last cleared, and how many steps were taken.
    ghost progress: { Self → Progress H.Input H.Output };

    /// Whether its world is that after these steps.
    ghost follows: { Self → List (Step H.Input) → Type 0 };

    /// What holds of it when it is made and after each step that doesn't answer want of memory.
    ghost sound: { Self → Type 0 };

    /// Takes one step, or says why not: the first refusal that applies. A refused step changes nothing.
    /// After want of memory the network is given up.
    fn step(&mut self, step: &Step<H::Input>) -> Result<(), StepFault>
        requires sound { sound self.old }
        requires steps { (progress self.old).taken < MAX_STEPS }
        ensures refused { (ss : List (Step H.Input)) → HasTaken (system self.old) follows progress ss self.old
            → IsAnswer result (refusal_of (system self.old).net (system self.old).meaning (world_of (system self.old) ss) step.now) }
        ensures unchanged { IfErr result (λ why. why ≢ StepFault.Memory → self.new ≡ self.old) }
        ensures next { OnOk result ((ss : List (Step H.Input)) → HasTaken (system self.old) follows progress ss self.old
            → HasTaken (system self.old) follows progress (ss ++ step.now ∷ []) self.new) }
        ensures trace { OnOk result ((ss : List (Step H.Input)) → HasTaken (system self.old) follows progress ss self.old
            → (progress self.new).trace ≡ (progress self.old).trace ++ items_of (system self.old).meaning (world_of (system self.old) ss)
            step.now) }
        ensures system { system self.new ≡ system self.old }
        ensures within { within self.new ≡ within self.old }
        ensures grows { OnOk result (GrowsBy (length (progress self.old).trace) (length (progress self.new).trace)) }
        ensures taken { OnOk result ((progress self.new).taken ≡ (progress self.old).taken + 1) }
        ensures sound { OnOk result (sound self.new) };

    /// The handlers that its nodes run, those within where its packets are bytes.
    fn handlers(&self) -> &H
        ensures { result.now ≡ within self.now };

    /// Which network it is.
    fn net(&self) -> Net
        ensures { result ≡ (system self.now).net };

    /// What clients saw since it was last cleared.
    fn trace(&self) -> &Trace<H::Input, H::Output>
        ensures { result.now ≡ (progress self.now).trace };

    /// Clears what clients saw so far: the trace begins anew. Nothing else changes.
    fn forget_trace(&mut self)
        ensures forgets { progress self.new ≡ record (progress self.old) { trace = [] } }
        ensures follows { (ss : List (Step H.Input)) → follows self.old ss → follows self.new ss }
        ensures system { system self.new ≡ system self.old }
        ensures within { within self.new ≡ within self.old }
        ensures sound { sound self.old → sound self.new };

    /// Gives up the network for what clients saw since it was last cleared.
    fn into_trace(self) -> Trace<H::Input, H::Output>
        ensures { result ≡ (progress self).trace };

    /// How many steps it has taken.
    fn taken(&self) -> u32
        ensures { result ≡ (progress self.now).taken };

    /// The state of node `n`. A node that is down has the one in which it stopped.
    fn state(&self, n: Node) -> &H::State
        requires sound { sound self.now }
        requires node { n < (system self.now).meaning.nodes }
        ensures state { (ss : List (Step H.Input)) → follows self.now ss → result.now ≡ (world_of (system self.now) ss).state n }
        ensures sound { H.sound (within self.now) n result.now };

    /// Whether node `n` is up.
    fn is_up(&self, n: Node) -> bool
        ensures { (ss : List (Step H.Input)) → follows self.now ss → result ≡ (world_of (system self.now) ss).is_up n };

    /// How many packets were sent.
    fn sent(&self) -> u32
        requires { sound self.now }
        ensures { (ss : List (Step H.Input)) → follows self.now ss → result ≡ length (world_of (system self.now) ss).packets };

    /// How many copies of packet `k` are in flight, none of one that was never sent.
    fn copies(&self, k: u32) -> u32
        ensures { (ss : List (Step H.Input)) → follows self.now ss → result ≡ copies (world_of (system self.now) ss) k };

    /// The source and the destination of packet `k`, and `None` exactly where it was never sent.
    fn ends(&self, k: u32) -> Option<(Node, Node)>
        ensures ends { (ss : List (Step H.Input)) → follows self.now ss → result ≡ ends (world_of (system self.now) ss) k }
        ensures below { (ss : List (Step H.Input)) → follows self.now ss → sound self.now
            → IfSome result (λ e. e.1 < (system self.now).meaning.nodes) };

    /// What its system's handlers mean is what they do.
    ghost same_meaning: { (w : Self) → (system w).meaning ≡ H.meaning (within w) };
}
