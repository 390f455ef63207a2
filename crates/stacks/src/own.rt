ghost use Rattle.std.specs.Prelude.{◌≡◌, ◌≢◌, ◌≤◌, ◌+◌, ℕ, IfOk, IsTrue, Some, length, refl};
ghost use Rattle.check_text.specs.ImageLines.{IsHeaded};
ghost use Rattle.stacks.specs.Claimed.{of_itself};
ghost use Rattle.stacks.specs.Kinds.{IsWhatClientsSee, header_on, nodes_of, schedule_below};
ghost use Rattle.stacks.specs.Plays.{texts_of};
ghost use Rattle.vst_base.specs.Nets.{stops_no_node};
ghost use Rattle.vst_base.specs.Stacks.{row_of};
ghost use Rattle.vst_base.specs.declared.net.Net.TheVariants as net;
ghost use Rattle.vst_base.specs.declared.stack.StackId.{StackId as SpecId};
ghost use Rattle.vst_base.specs.declared.node.TheConstants.{MAX_NODES};
ghost use Rattle.vst_base.specs.declared.step.TheConstants.{MAX_STEPS};
ghost use Rattle.check_text.specs.declared.reading.TheConstants.{MAX_LINES};

use crate::{Layered, Stepwise};
use app_text::AppText;
use check_text::{Claim, Steps};
use claim_verdicts::{Verdict, schedule_verdict};
use handler_trait::Handlers;
use runs_in_bytes::InBytes;
use schedule_make::MakesInputs;
use schedule_text::{Header, headers_follow_the_rows};
use std::alloc::{AllocError, Global};
use std::marker::PhantomData;
use vst_base::{Net, StackId, Step};
use wired::OnWire;
use xform_stack::{Itself, Mapped};

/// Handlers that are a stack by themselves, without a transformer, on a network that carries packets and stops no node.
pub trait OwnStack: Handlers {
    /// How their inputs and outputs are spelled.
    type Text: AppText<Input = Self::Input, Output = Self::Output>;

    /// Their inputs in made schedules.
    type Inputs: MakesInputs<Input = Self::Input>;

    /// Which stack they are.
    ghost own: { SpecId };

    /// The handlers of so many nodes.
    ghost of_nodes: { ℕ → Self };

    /// Which stack they are.
    fn own() -> StackId
        ensures own { result ≡ own }
        ensures stays_up { IsTrue (stops_no_node (row_of own).net) }
        ensures sends { (row_of own).net ≢ net.One };

    /// The handlers of so many nodes.
    fn of_nodes(nodes: u8) -> Self
        requires least { (row_of own).least ≤ nodes }
        requires most { nodes ≤ (row_of own).most }
        ensures of_nodes { result ≡ of_nodes nodes }
        ensures few_nodes { (Self.meaning result).nodes ≤ MAX_NODES };
}

// The header of a schedule of a stack on its network.
pub(crate) fn header_on(stack: StackId, nodes: u8) -> Header
    ensures { result ≡ header_on stack nodes }
{
    Header {
        net: stack.row().net,
        stack,
        nodes,
    }
}

/// Such handlers alone: the image of a schedule is the schedule itself.
pub struct Own<H> {
    handlers: PhantomData<H>,
}

// How many nodes the header of an image names: none where there is no header.
pub(crate) fn nodes_of(header: Option<Header>) -> u8
    ensures { result ≡ nodes_of header }
{
    match header {
        Some(header) => header.nodes,
        None => 0,
    }
}

// The verdict on a claim whose image is a schedule of these handlers.
fn own_verdict<H: OwnStack>(
    alloc: Global,
    claim: &Claim<H::Input, H::Output, Step<H::Input>>,
) -> Result<Verdict, AllocError>
    requires few { length claim.now.trace + length claim.now.image ≤ MAX_LINES }
    requires counted { length claim.now.image ≤ MAX_STEPS }
    requires headed { IsHeaded (Some H.own) claim.now.header }
    ensures { IfOk result (λ verdict. verdict ≡ (of_itself (row_of H.own).net (λ n. H.meaning (H.of_nodes n))
        (texts_of H.Text.input_of H.Text.input_text H.Text.output_of H.Text.output_text H.Text.replies)).verdict claim.now) }
{
    headers_follow_the_rows();
    let handlers = H::of_nodes(nodes_of(claim.header()));
    schedule_verdict::<H, H::Text>(alloc, handlers, H::own().row().net, claim)
}

impl<H: OwnStack + OnWire> Layered for Own<H> {
    type Input = H::Input;

    type Output = H::Output;

    type Handlers = H;

    type Line = Step<H::Input>;

    type Text = H::Text;

    type Lines = Steps<H::Text>;

    type Network = InBytes<H>;

    type Observer = Mapped<Itself<H::Input>>;

    type Look = ();

    type Inputs = H::Inputs;

    ghost net = { (row_of H.own).net };

    ghost handlers = { H.of_nodes };

    ghost below = { λ n. schedule_below (header_on H.own n)
        (texts_of H.Text.input_of H.Text.input_text H.Text.output_of H.Text.output_text H.Text.replies) };

    ghost Explains = { λ c. IsWhatClientsSee (row_of H.own).net (H.meaning (H.of_nodes (nodes_of c.header))) c };

    ghost claimed = { of_itself (row_of H.own).net (λ n. H.meaning (H.of_nodes n))
        (texts_of H.Text.input_of H.Text.input_text H.Text.output_of H.Text.output_text H.Text.replies) };

    ghost ready = { λ n. ((row_of H.own).least ≤ n) × (n ≤ (row_of H.own).most) };

    fn net() -> Net {
        H::own().row().net
    }

    fn handlers(nodes: u8) -> H {
        H::of_nodes(nodes)
    }

    fn below(nodes: u8) -> Option<Header> {
        Some(header_on(H::own(), nodes))
    }

    fn verdict(
        alloc: Global,
        _nodes: u8,
        claim: &Claim<H::Input, H::Output, Step<H::Input>>,
    ) -> Result<Verdict, AllocError> {
        own_verdict::<H>(alloc, claim)
    }

    ghost says = { refl };

    ghost fits = { λ _ _. tt };
}

impl<H: OwnStack + OnWire> Stepwise for Own<H> {
    type Map = Itself<H::Input>;
}
