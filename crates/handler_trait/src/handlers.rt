ghost use Rattle.std.specs.Prelude.{◌≡◌, ℕ, Bool, ◌+◌, ◌<◌, ◌≤◌, IsTrue, IfOk, OnOk};
ghost use Rattle.handler_trait.specs.Handling.{Meaning, Does, IsModest};
ghost use Rattle.handler_trait.specs.declared.handlers.TheConstants.{MAX_SENDS, STEP_COST, SPENT_MAX};

use crate::Effects;
use std::alloc::{AllocError, Global};
use vst_base::Node;

/// The greatest number of packets that one event sends.
pub const MAX_SENDS: usize = 8;

/// The greatest number of outputs that one event makes beside those that answer what was spent before: a replica that applies its
/// whole log at once answers for each entry.
pub const MAX_OUTPUTS: usize = 1_000_000;

/// The greatest growth of `spent` in one event.
pub const STEP_COST: u64 = 8;

/// The greatest value of `spent`, 2^62.
pub const SPENT_MAX: u64 = 4_611_686_018_427_387_904;

/// An application or a transformed one: what the events at its nodes do. Each event is a function of
/// the node, its state and the event, and adds its outputs and sends to `effects`. After an `Err`,
/// which is want of memory, the state and the effects are given up.
pub trait Handlers: Drop {
    type State: Drop;

    type Input: Drop;

    type Output: Drop;

    type Msg: Drop;

    /// The handlers as functions.
    ghost meaning: { Self → Meaning Self.State Self.Input Self.Output Self.Msg };

    /// What each state of a node keeps to.
    ghost sound: { Self → ℕ → Self.State → Type 0 };

    /// What a state has used up of the counters that it holds.
    ghost spent: { Self → Self.State → ℕ };

    /// At most so many packets are sent by one event of these handlers.
    const SENDS: usize;

    ghost SENDS: { ℕ };

    /// How many nodes there are.
    fn nodes(&self) -> u8
        ensures { result ≡ (meaning self.now).nodes };

    /// Whether the node takes input.
    fn takes_input(&self, node: Node) -> bool
        ensures { result ≡ (meaning self.now).takes_input node };

    /// An equal input.
    fn copy_input(&self, alloc: Global, input: &Self::Input) -> Result<Self::Input, AllocError>
        ensures { IfOk result (λ copy. copy ≡ input.now) };

    /// An equal message.
    fn copy_msg(&self, alloc: Global, message: &Self::Msg) -> Result<Self::Msg, AllocError>
        ensures { IfOk result (λ copy. copy ≡ message.now) };

    /// The node's first state.
    fn init(&self, alloc: Global, node: Node) -> Result<Self::State, AllocError>
        requires { node < (meaning self.now).nodes }
        ensures first { IfOk result (λ state. state ≡ (meaning self.now).init node) }
        ensures sound { IfOk result (λ state. sound self.now node state) };

    /// A client gives the node an input.
    fn input(
        &self,
        alloc: Global,
        node: Node,
        state: &mut Self::State,
        input: &Self::Input,
        effects: &mut Effects<Self::Output, Self::Msg>,
    ) -> Result<(), AllocError>
        requires node { node < (meaning self.now).nodes }
        requires takes { IsTrue ((meaning self.now).takes_input node) }
        requires sound { sound self.now node state.old }
        requires budget { spent self.now state.old + STEP_COST ≤ SPENT_MAX }
        requires room { SENDS ≤ effects.old.send_places }
        ensures does { OnOk result (Does ((meaning self.now).input node state.old input.now) state.new effects.old effects.new) }
        ensures sound { OnOk result (sound self.now node state.new) };

    /// A packet comes to the node from another, or from itself.
    fn message(
        &self,
        alloc: Global,
        node: Node,
        state: &mut Self::State,
        from: Node,
        message: &Self::Msg,
        effects: &mut Effects<Self::Output, Self::Msg>,
    ) -> Result<(), AllocError>
        requires node { node < (meaning self.now).nodes }
        requires from { from < (meaning self.now).nodes }
        requires sound { sound self.now node state.old }
        requires budget { spent self.now state.old + STEP_COST ≤ SPENT_MAX }
        requires room { SENDS ≤ effects.old.send_places }
        ensures does { OnOk result (Does ((meaning self.now).message node state.old from message.now) state.new effects.old effects.new) }
        ensures sound { OnOk result (sound self.now node state.new) };

    /// The node's timer fires.
    fn timeout(
        &self,
        alloc: Global,
        node: Node,
        state: &mut Self::State,
        effects: &mut Effects<Self::Output, Self::Msg>,
    ) -> Result<(), AllocError>
        requires node { node < (meaning self.now).nodes }
        requires sound { sound self.now node state.old }
        requires budget { spent self.now state.old + STEP_COST ≤ SPENT_MAX }
        requires room { SENDS ≤ effects.old.send_places }
        ensures does { OnOk result (Does ((meaning self.now).timeout node state.old) state.new effects.old effects.new) }
        ensures sound { OnOk result (sound self.now node state.new) };

    /// No handlers send more packets in one event than `MAX_SENDS`.
    ghost few_sends: { SENDS ≤ MAX_SENDS };

    /// Nothing is spent at first.
    ghost fresh: { (h : Self) (n : ℕ) → n < (meaning h).nodes → spent h ((meaning h).init n) ≡ 0 };

    /// An event sends at most `SENDS` packets, each to a node that exists, spends at most `STEP_COST`, and, where the state that
    /// it makes is sound, has at most `MAX_OUTPUTS` outputs and as many more as were spent before.
    ghost modest_input: { (h : Self) (n : ℕ) (s : Self.State) (i : Self.Input) → n < (meaning h).nodes
        → IsTrue ((meaning h).takes_input n) → sound h n s
        → IsModest (meaning h).nodes SENDS (sound h n) (spent h) s ((meaning h).input n s i) };

    ghost modest_message: { (h : Self) (n : ℕ) (s : Self.State) (from : ℕ) (m : Self.Msg) → n < (meaning h).nodes
        → from < (meaning h).nodes → sound h n s
        → IsModest (meaning h).nodes SENDS (sound h n) (spent h) s ((meaning h).message n s from m) };

    ghost modest_timeout: { (h : Self) (n : ℕ) (s : Self.State) → n < (meaning h).nodes → sound h n s
        → IsModest (meaning h).nodes SENDS (sound h n) (spent h) s ((meaning h).timeout n s) };
}
