ghost use Rattle.std.specs.Prelude.{◌≡◌, ◌≤◌, ◌+◌, IfOk, length, refl};
ghost use Rattle.stacks.specs.Claimed.{layers_claimed};
ghost use Rattle.stacks.specs.Explained.{alone_play};
ghost use Rattle.stacks.specs.Kinds.{Alone, Backed, IsMachineAlone, IsOneMachine, application, header_on, schedule_below};
ghost use Rattle.stacks.specs.Made.{layers_made};
ghost use Rattle.stacks.specs.Plays.{texts_of};
ghost use Rattle.vst_base.specs.declared.net.Net.TheVariants as net;
ghost use Rattle.vst_base.specs.declared.stack.StackId.{StackId as SpecId};

use crate::own::header_on;
use crate::{Judged, Layered, Plays, StackCode, Stepwise};
use app_text::{MachineText, PbText};
use check_text::{Claim, Steps};
use claim_verdicts::{Verdict, backup_verdict, schedule_verdict};
use primary_backup::PrimaryBackup;
use runs_in_bytes::InBytes;
use schedule_make::MakesInputs;
use schedule_text::Header;
use std::alloc::{AllocError, Global};
use std::marker::PhantomData;
use trace_maps::SingleNode;
use vst_base::{Net, PbOut, Queries, StackId, Step};
use wired::AlwaysFits;
use xform_stack::{Itself, Mapped, RepliedTo, Running, SteadyWorld};

/// A machine with its texts, which alone is a stack, and which tells which of its commands read.
pub trait Application: Queries {
    /// How its commands and outputs are spelled.
    type Text: MachineText<Input = Self::Cmd, Output = Self::Out>;

    /// Its commands in made schedules.
    type Inputs: MakesInputs<Input = Self::Cmd>;

    /// Which stack it is alone.
    ghost own: { SpecId };

    /// The machine.
    ghost machine: { Self };

    /// Which stack it is alone.
    fn own() -> StackId
        ensures { result ≡ own };

    /// The machine.
    fn machine() -> Self
        ensures { result ≡ machine };
}

// The header of an image that is a schedule of a machine alone.
fn alone_header<M: Application>() -> Header
    ensures { result ≡ header_on M.own 1 }
{
    header_on(M::own(), 1)
}

/// A machine at its one node: the image of a schedule is the schedule itself.
pub struct Alone<M> {
    machine: PhantomData<M>,
}

/// A machine under primary-backup: the image is a schedule of the machine alone.
pub struct Backed<M> {
    machine: PhantomData<M>,
}

impl<M: Application> Plays for Alone<M> {
    type Input = M::Cmd;

    type Output = M::Out;

    type Line = Step<M::Cmd>;

    type Text = M::Text;

    type Running = Running<SingleNode<M>, SteadyWorld<SingleNode<M>>, Mapped<Itself<M::Cmd>>>;

    ghost play = { λ _. alone_play (application M.own (M.meaning M.machine)
        (texts_of M.Text.input_of M.Text.input_text M.Text.output_of M.Text.output_text M.Text.replies) M.Inputs.inputs) };

    ghost Explains = { IsMachineAlone (M.meaning M.machine) };

    ghost ready = { λ _ _. Unit {0} };

    fn below(_nodes: u8) -> Option<Header> {
        Some(alone_header::<M>())
    }

    fn start(alloc: Global, _stack: StackId, _nodes: u8) -> Result<Self::Running, AllocError> {
        let network = SteadyWorld::new(alloc, SingleNode::new(M::machine()), Net::One)?;
        Ok(Running::new(alloc, network))
    }
}

impl<M: Application> Judged for Alone<M> {
    type Lines = Steps<M::Text>;

    ghost claimed = { layers_claimed (Alone (application M.own (M.meaning M.machine)
        (texts_of M.Text.input_of M.Text.input_text M.Text.output_of M.Text.output_text M.Text.replies) M.Inputs.inputs)) };

    fn verdict(
        alloc: Global,
        _nodes: u8,
        claim: &Claim<M::Cmd, M::Out, Step<M::Cmd>>,
    ) -> Result<Verdict, AllocError> {
        let node = SingleNode::new(M::machine());
        schedule_verdict::<SingleNode<M>, M::Text>(alloc, node, Net::One, claim)
    }

    ghost says = { refl };
}

impl<M: Application> StackCode for Alone<M> {
    type Handlers = SingleNode<M>;

    type Network = SteadyWorld<SingleNode<M>>;

    type Inputs = M::Inputs;

    ghost made = { layers_made (Alone (application M.own (M.meaning M.machine)
        (texts_of M.Text.input_of M.Text.input_text M.Text.output_of M.Text.output_text M.Text.replies) M.Inputs.inputs)) };

    fn network(alloc: Global, _stack: StackId, _nodes: u8) -> Result<Self::Network, AllocError> {
        SteadyWorld::new(alloc, SingleNode::new(M::machine()), Net::One)
    }
}

impl<M: Application> Layered for Backed<M>
where
    M::Cmd: AlwaysFits,
{
    type Input = M::Cmd;

    type Output = PbOut<M::Out>;

    type Handlers = PrimaryBackup<M>;

    type Line = Step<M::Cmd>;

    type Text = PbText<M::Text>;

    type Lines = Steps<PbText<M::Text>>;

    type Network = InBytes<PrimaryBackup<M>>;

    type Observer = Mapped<RepliedTo<M::Cmd>>;

    type Look = ();

    type Inputs = M::Inputs;

    ghost net = { net.Bag };

    ghost handlers = { λ _. M.machine };

    ghost below = { λ _. schedule_below (header_on M.own 1)
        (texts_of M.Text.input_of M.Text.input_text M.Text.output_of M.Text.output_text M.Text.replies) };

    ghost Explains = { IsOneMachine (M.meaning M.machine) };

    ghost claimed = { layers_claimed (Backed (application M.own (M.meaning M.machine)
        (texts_of M.Text.input_of M.Text.input_text M.Text.output_of M.Text.output_text M.Text.replies) M.Inputs.inputs)) };

    ghost ready = { λ _. Unit {0} };

    fn net() -> Net {
        Net::Bag
    }

    fn handlers(_nodes: u8) -> PrimaryBackup<M> {
        PrimaryBackup::new(M::machine())
    }

    fn below(_nodes: u8) -> Option<Header> {
        Some(alone_header::<M>())
    }

    fn verdict(
        alloc: Global,
        _nodes: u8,
        claim: &Claim<M::Cmd, PbOut<M::Out>, Step<M::Cmd>>,
    ) -> Result<Verdict, AllocError> {
        backup_verdict::<M, M::Text>(alloc, M::machine(), claim)
    }

    ghost says = { refl };

    ghost fits = { λ _ _. tt };
}

impl<M: Application> Stepwise for Backed<M>
where
    M::Cmd: AlwaysFits,
{
    type Map = RepliedTo<M::Cmd>;
}
