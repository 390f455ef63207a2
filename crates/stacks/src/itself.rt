ghost use Rattle.std.specs.Prelude.{◌≡◌, ◌≤◌, ◌+◌, ℕ, IfOk, Some, length, refl};
ghost use Rattle.check_text.specs.ImageLines.{IsHeaded};
ghost use Rattle.stacks.specs.Claimed.{of_itself};
ghost use Rattle.stacks.specs.Kinds.{IsWhatClientsSee, header_on, nodes_of, schedule_below};
ghost use Rattle.stacks.specs.Plays.{texts_of};
ghost use Rattle.vst_base.specs.Stacks.{row_of};
ghost use Rattle.vst_base.specs.declared.stack.StackId.{StackId as SpecId};
ghost use Rattle.vst_base.specs.declared.step.TheConstants.{MAX_STEPS};
ghost use Rattle.check_text.specs.declared.reading.TheConstants.{MAX_LINES};

use crate::own::{header_on, nodes_of};
use crate::{Application, Backed, Layered, Numbered, Own, OwnStack, Stepwise};
use check_text::{Claim, Steps};
use claim_verdicts::{Verdict, schedule_verdict};
use schedule_text::{Header, headers_follow_the_rows};
use std::alloc::{AllocError, Global};
use std::marker::PhantomData;
use vst_base::{Net, StackId, Step};
use wired::{AlwaysFits, OnWire};
use xform_stack::{Itself, Mapped};

/// Layers that are a stack, whose schedules can be images.
pub trait Named: Layered {
    /// Which stack they are.
    ghost own: { SpecId };

    /// Which stack they are.
    fn own() -> StackId
        ensures { result ≡ own };

    /// They can have as many nodes as that stack.
    ghost ready_as: { (n : ℕ) → (row_of own).least ≤ n → n ≤ (row_of own).most → Self.ready n };
}

/// Layers that are a stack once their packets are numbered.
pub trait NamedInNumbers: Stepwise {
    /// Which stack they are then.
    ghost numbered: { SpecId };

    /// Which stack they are then.
    fn numbered() -> StackId
        ensures { result ≡ numbered };

    /// They can have as many nodes as that stack.
    ghost ready_numbered: { (n : ℕ) → (row_of numbered).least ≤ n → n ≤ (row_of numbered).most → Self.ready n };
}

impl<S: NamedInNumbers> Named for Numbered<S> {
    ghost own = { S.numbered };

    fn own() -> StackId {
        S::numbered()
    }

    ghost ready_as = { S.ready_numbered };
}

/// Handlers that are a stack by themselves, and another with numbered packets.
pub trait NumberedStack: OwnStack {
    /// Which stack they are with numbered packets.
    ghost numbered: { SpecId };

    /// Which stack they are with numbered packets.
    fn numbered() -> StackId
        ensures { result ≡ numbered };

    /// That has as many nodes as they by themselves.
    ghost as_many: { (n : ℕ) → (row_of numbered).least ≤ n → n ≤ (row_of numbered).most
        → ((row_of Self.own).least ≤ n) × (n ≤ (row_of Self.own).most) };
}

impl<H: NumberedStack + OnWire> NamedInNumbers for Own<H> {
    ghost numbered = { H.numbered };

    fn numbered() -> StackId {
        H::numbered()
    }

    ghost ready_numbered = { H.as_many };
}

/// A machine that is a stack under primary-backup with numbered packets.
pub trait NumberedBackup: Application {
    /// Which stack it is then.
    ghost numbered: { SpecId };

    /// Which stack it is then.
    fn numbered() -> StackId
        ensures { result ≡ numbered };
}

impl<M: NumberedBackup> NamedInNumbers for Backed<M>
where
    M::Cmd: AlwaysFits,
{
    ghost numbered = { M.numbered };

    fn numbered() -> StackId {
        M::numbered()
    }

    ghost ready_numbered = { λ _ _ _. tt };
}

/// Layers that are a stack, with another image: that of a schedule is the schedule itself, as one of that stack.
pub struct AsOwn<S> {
    layers: PhantomData<S>,
}

// The verdict on a claim whose image is a schedule of these layers.
fn itself_verdict<S: Named>(
    alloc: Global,
    claim: &Claim<S::Input, S::Output, Step<S::Input>>,
) -> Result<Verdict, AllocError>
    requires few { length claim.now.trace + length claim.now.image ≤ MAX_LINES }
    requires counted { length claim.now.image ≤ MAX_STEPS }
    requires headed { IsHeaded (Some S.own) claim.now.header }
    ensures { IfOk result (λ verdict. verdict ≡ (of_itself S.net (λ n. S.Handlers.meaning (S.handlers n))
        (texts_of S.Text.input_of S.Text.input_text S.Text.output_of S.Text.output_text S.Text.replies)).verdict claim.now) }
{
    headers_follow_the_rows();
    let handlers = S::handlers(nodes_of(claim.header()));
    schedule_verdict::<S::Handlers, S::Text>(alloc, handlers, S::net(), claim)
}

impl<S: Named> Layered for AsOwn<S> {
    type Input = S::Input;

    type Output = S::Output;

    type Handlers = S::Handlers;

    type Line = Step<S::Input>;

    type Text = S::Text;

    type Lines = Steps<S::Text>;

    type Network = S::Network;

    type Observer = Mapped<Itself<S::Input>>;

    type Look = ();

    type Inputs = S::Inputs;

    ghost net = { S.net };

    ghost handlers = { S.handlers };

    ghost below = { λ n. schedule_below (header_on S.own n)
        (texts_of S.Text.input_of S.Text.input_text S.Text.output_of S.Text.output_text S.Text.replies) };

    ghost Explains = { λ c. IsWhatClientsSee S.net (S.Handlers.meaning (S.handlers (nodes_of c.header))) c };

    ghost claimed = { of_itself S.net (λ n. S.Handlers.meaning (S.handlers n))
        (texts_of S.Text.input_of S.Text.input_text S.Text.output_of S.Text.output_text S.Text.replies) };

    ghost ready = { S.ready };

    fn net() -> Net {
        S::net()
    }

    fn handlers(nodes: u8) -> S::Handlers {
        S::handlers(nodes)
    }

    fn below(nodes: u8) -> Option<Header> {
        Some(header_on(S::own(), nodes))
    }

    fn verdict(
        alloc: Global,
        _nodes: u8,
        claim: &Claim<S::Input, S::Output, Step<S::Input>>,
    ) -> Result<Verdict, AllocError> {
        itself_verdict::<S>(alloc, claim)
    }

    ghost says = { refl };

    ghost fits = { λ _ _. tt };
}

impl<S: Named> Stepwise for AsOwn<S> {
    type Map = Itself<S::Input>;
}
