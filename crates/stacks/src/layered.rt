ghost use Rattle.std.specs.Prelude.{◌≡◌, ◌≢◌, ◌≤◌, ◌+◌, ℕ, [], IfOk, IsTrue, length, option_map, refl};
ghost use Rattle.check_text.specs.Claims.{Claim as SpecClaim};
ghost use Rattle.check_text.specs.ImageLines.{IsHeaded};
ghost use Rattle.stacks.specs.Claimed.{Claimed};
ghost use Rattle.stacks.specs.Plays.{ImageTexts, image_of};
ghost use Rattle.vst_base.specs.Nets.{stops_no_node};
ghost use Rattle.vst_base.specs.declared.net.Net.{Net as SpecNet};
ghost use Rattle.vst_base.specs.declared.net.Net.TheVariants as network;
ghost use Rattle.vst_base.specs.declared.node.TheConstants.{MAX_NODES};
ghost use Rattle.vst_base.specs.declared.step.TheConstants.{MAX_STEPS};
ghost use Rattle.check_text.specs.declared.reading.TheConstants.{MAX_LINES};
ghost use Rattle.wire_codec.specs.Datagrams.{longest_message};
ghost use Rattle.wire_codec.specs.Headings.{HasByte};
ghost use Rattle.wired.specs.WiredRuns.{IsFormatOf};
ghost use Rattle.xform_stack.specs.Running.{HasTaken};
ghost use Rattle.xform_stack.specs.Systems.{system_of};

use app_text::AppText;
use check_text::{Claim, ImageText};
use claim_verdicts::Verdict;
use fifo_observer::InOrder;
use fifo_xform::Fifo;
use handler_trait::LeavesRoom;
use retry_observer::Resent;
use retry_xform::Retry;
use runs_in_bytes::InBytes;
use schedule_make::MakesInputs;
use schedule_text::{Header, Printed};
use seqnum_xform::SeqNum;
use std::alloc::{AllocError, Global};
use std::marker::PhantomData;
use vst_base::{Net, StackId};
use wired::OnWire;
use xform_stack::{Mapped, Network, Observer, TraceMap, WithoutRepeats};

/// A network that stops no node, on which handlers run in the packets of a stack.
pub trait OfStack<H: OnWire>: Network<H, Kept = H::State> {
    /// No step yet of these handlers, of at most `MAX_NODES` nodes, in the bytes of a stack whose messages are theirs.
    fn of_stack(alloc: Global, handlers: H, stack: StackId, net: Net) -> Result<Self, AllocError>
        requires net { IsTrue (stops_no_node net) }
        requires sends { net ≢ Net.One }
        requires few_nodes { (H.meaning handlers).nodes ≤ MAX_NODES }
        requires packets { HasByte stack }
        requires format { IsFormatOf stack H.Msg.format }
        requires short { H.longest ≤ longest_message }
        ensures system { IfOk result (λ w. Self.system w ≡ system_of net (H.meaning handlers)) }
        ensures within { IfOk result (λ w. Self.within w ≡ handlers) }
        ensures started { IfOk result (λ w. HasTaken (Self.system w) Self.follows Self.progress [] w) }
        ensures trace { IfOk result (λ w. (Self.progress w).trace ≡ []) }
        ensures sound { IfOk result Self.sound };
}

impl<H: OnWire> OfStack<H> for InBytes<H> {
    fn of_stack(alloc: Global, handlers: H, stack: StackId, net: Net) -> Result<Self, AllocError> {
        InBytes::new(alloc, handlers, stack, net)
    }
}

/// An application whose nodes never stop, and the transformers over it: its handlers and their network, and what makes the image of
/// a run.
pub trait Layered {
    type Input: Drop;

    type Output: Drop;

    /// What its nodes run.
    type Handlers: OnWire<Input = Self::Input, Output = Self::Output>;

    /// A line of the image.
    type Line: Printed<Self::Text> + Drop;

    /// How inputs and outputs are spelled.
    type Text: AppText<Input = Self::Input, Output = Self::Output>;

    /// How the lines of an image are read.
    type Lines: ImageText<Line = Self::Line>;

    /// What its schedules run on.
    type Network: OfStack<Self::Handlers>;

    /// What watches a run, and makes its image.
    type Observer: Observer<Self::Handlers, Self::Network, Look = Self::Look, Line = Self::Line>;

    /// What that notes before a step.
    type Look: Drop;

    /// The inputs of made schedules.
    type Inputs: MakesInputs<Input = Self::Input>;

    /// The network that its schedules run on.
    ghost net: { SpecNet };

    /// The handlers of so many nodes.
    ghost handlers: { ℕ → Self.Handlers };

    /// What stands below a trace of so many nodes.
    ghost below: { ℕ → ImageTexts Self.Line };

    /// What it means that an image explains a trace.
    ghost Explains: { SpecClaim Self.Input Self.Output Self.Line → Type 0 };

    /// What a line of an image says, and the verdict on a claim.
    ghost claimed: { Claimed Self.Input Self.Output Self.Line };

    /// Whether there may be so many nodes.
    ghost ready: { ℕ → Type 0 };

    /// The network that its schedules run on, which carries packets and stops no node.
    fn net() -> Net
        ensures net { result ≡ net }
        ensures stays_up { IsTrue (stops_no_node net) }
        ensures sends { net ≢ Net.One };

    /// The handlers of so many nodes.
    fn handlers(nodes: u8) -> Self::Handlers
        requires { ready nodes }
        ensures handlers { result ≡ handlers nodes }
        ensures few_nodes { (Self.Handlers.meaning result).nodes ≤ MAX_NODES };

    /// The header of the image, where it has one.
    fn below(nodes: u8) -> Option<Header>
        ensures { below nodes ≡ image_of result Self.Line.text };

    /// The verdict on a claim that was read.
    fn verdict(
        alloc: Global,
        nodes: u8,
        claim: &Claim<Self::Input, Self::Output, Self::Line>,
    ) -> Result<Verdict, AllocError>
        requires few { length claim.now.trace + length claim.now.image ≤ MAX_LINES }
        requires counted { length claim.now.image ≤ MAX_STEPS }
        requires headed { IsHeaded (option_map (λ h. h.stack) (below nodes).header) claim.now.header }
        ensures { IfOk result (λ verdict. verdict ≡ claimed.verdict claim.now) };

    /// Lines of an image are read so.
    ghost says: { claimed.says ≡ Self.Lines.says };

    /// The observer can observe the handlers on their network.
    ghost fits: { (n : ℕ) → ready n → Self.Observer.fits (handlers n) (system_of net (Self.Handlers.meaning (handlers n))) };
}

/// Layers whose image is made of the steps and of what clients saw alone: their observer is one by this map.
pub trait Stepwise: Layered {
    /// How a run is mapped to its image.
    type Map: TraceMap<Self::Input, Self::Output, Line = Self::Line>;
}

/// Layers with numbered packets, on a network that copies packets: the image is that of the schedule without repeats.
pub struct Numbered<S> {
    layers: PhantomData<S>,
}

impl<S: Stepwise> Layered for Numbered<S> {
    type Input = S::Input;

    type Output = S::Output;

    type Handlers = SeqNum<S::Handlers>;

    type Line = S::Line;

    type Text = S::Text;

    type Lines = S::Lines;

    type Network = InBytes<SeqNum<S::Handlers>>;

    type Observer = Mapped<WithoutRepeats<S::Map>>;

    type Look = ();

    type Inputs = S::Inputs;

    ghost net = { network.Dup };

    ghost handlers = { S.handlers };

    ghost below = { S.below };

    ghost Explains = { S.Explains };

    ghost claimed = { S.claimed };

    ghost ready = { S.ready };

    fn net() -> Net {
        Net::Dup
    }

    fn handlers(nodes: u8) -> SeqNum<S::Handlers> {
        SeqNum::new(S::handlers(nodes))
    }

    fn below(nodes: u8) -> Option<Header> {
        S::below(nodes)
    }

    fn verdict(
        alloc: Global,
        nodes: u8,
        claim: &Claim<S::Input, S::Output, S::Line>,
    ) -> Result<Verdict, AllocError> {
        S::verdict(alloc, nodes, claim)
    }

    ghost says = { S.says };

    ghost fits = { λ _ _. tt };
}

impl<S: Stepwise> Stepwise for Numbered<S> {
    type Map = WithoutRepeats<S::Map>;
}

/// Layers over FIFO channels, on a network that copies and reorders packets: the image is that of the schedule within, on a network
/// that keeps the order of packets.
pub struct Ordered<S> {
    layers: PhantomData<S>,
}

impl<S: Stepwise> Layered for Ordered<S> {
    type Input = S::Input;

    type Output = S::Output;

    type Handlers = Fifo<S::Handlers>;

    type Line = S::Line;

    type Text = S::Text;

    type Lines = S::Lines;

    type Network = InBytes<Fifo<S::Handlers>>;

    type Observer = InOrder<S::Map>;

    type Look = Option<u32>;

    type Inputs = S::Inputs;

    ghost net = { network.Dup };

    ghost handlers = { S.handlers };

    ghost below = { S.below };

    ghost Explains = { S.Explains };

    ghost claimed = { S.claimed };

    ghost ready = { S.ready };

    fn net() -> Net {
        Net::Dup
    }

    fn handlers(nodes: u8) -> Fifo<S::Handlers> {
        Fifo::new(S::handlers(nodes))
    }

    fn below(nodes: u8) -> Option<Header> {
        S::below(nodes)
    }

    fn verdict(
        alloc: Global,
        nodes: u8,
        claim: &Claim<S::Input, S::Output, S::Line>,
    ) -> Result<Verdict, AllocError> {
        S::verdict(alloc, nodes, claim)
    }

    ghost says = { S.says };

    ghost fits = { λ _ _. refl };
}

/// Layers that send again what is not acknowledged, on a network that loses packets: the image is that of the schedule within, on a
/// network that loses none.
pub struct Retried<S> {
    layers: PhantomData<S>,
}

impl<S: Stepwise<Handlers: LeavesRoom>> Layered for Retried<S> {
    type Input = S::Input;

    type Output = S::Output;

    type Handlers = Retry<S::Handlers>;

    type Line = S::Line;

    type Text = S::Text;

    type Lines = S::Lines;

    type Network = InBytes<Retry<S::Handlers>>;

    type Observer = Resent<S::Map>;

    type Look = Option<u32>;

    type Inputs = S::Inputs;

    ghost net = { network.Loss };

    ghost handlers = { S.handlers };

    ghost below = { S.below };

    ghost Explains = { S.Explains };

    ghost claimed = { S.claimed };

    ghost ready = { S.ready };

    fn net() -> Net {
        Net::Loss
    }

    fn handlers(nodes: u8) -> Retry<S::Handlers> {
        Retry::new(S::handlers(nodes))
    }

    fn below(nodes: u8) -> Option<Header> {
        S::below(nodes)
    }

    fn verdict(
        alloc: Global,
        nodes: u8,
        claim: &Claim<S::Input, S::Output, S::Line>,
    ) -> Result<Verdict, AllocError> {
        S::verdict(alloc, nodes, claim)
    }

    ghost says = { S.says };

    ghost fits = { λ _ _. refl };
}
