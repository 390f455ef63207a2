ghost use Rattle.std.specs.Prelude.{◌≤◌};
ghost use Rattle.net_semantics.specs.Runs.{no_recovery};
ghost use Rattle.stacks.specs.Made.{made_on};
ghost use Rattle.stacks.specs.Plays.{play_of, texts_of};
ghost use Rattle.wire_codec.specs.Datagrams.{longest_message};
ghost use Rattle.wire_codec.specs.Headings.{HasByte};
ghost use Rattle.wired.specs.WiredRuns.{IsFormatOf};
ghost use Rattle.xform_stack.specs.Systems.{played_on, system_of};

use crate::{Judged, Layered, OfStack, Plays, StackCode};
use check_text::Claim;
use claim_verdicts::Verdict;
use schedule_text::Header;
use std::alloc::{AllocError, Global};
use std::marker::PhantomData;
use vst_base::StackId;
use xform_stack::Running;

/// The stack of such layers, whose packets are bytes.
pub struct Steady<S> {
    layers: PhantomData<S>,
}

impl<S: Layered> Plays for Steady<S> {
    type Input = S::Input;

    type Output = S::Output;

    type Line = S::Line;

    type Text = S::Text;

    type Running = Running<S::Handlers, S::Network, S::Observer>;

    ghost play = { λ n. play_of
        (played_on (system_of S.net (S.Handlers.meaning (S.handlers n)))
        (S.Observer.image_of (S.handlers n) (no_recovery {S = S.Handlers.State})))
        (texts_of S.Text.input_of S.Text.input_text S.Text.output_of S.Text.output_text S.Text.replies) (S.below n) };

    ghost Explains = { S.Explains };

    ghost ready = { λ i n. S.ready n × HasByte i × IsFormatOf i S.Handlers.Msg.format × (S.Handlers.longest ≤ longest_message) };

    fn below(nodes: u8) -> Option<Header> {
        S::below(nodes)
    }

    fn start(alloc: Global, stack: StackId, nodes: u8) -> Result<Self::Running, AllocError> {
        let network = S::Network::of_stack(alloc, S::handlers(nodes), stack, S::net())?;
        Ok(Running::new(alloc, network))
    }
}

impl<S: Layered> Judged for Steady<S> {
    type Lines = S::Lines;

    ghost claimed = { S.claimed };

    fn verdict(
        alloc: Global,
        nodes: u8,
        claim: &Claim<S::Input, S::Output, S::Line>,
    ) -> Result<Verdict, AllocError> {
        S::verdict(alloc, nodes, claim)
    }

    ghost says = { S.says };
}

impl<S: Layered> StackCode for Steady<S> {
    type Handlers = S::Handlers;

    type Network = S::Network;

    type Inputs = S::Inputs;

    ghost made = { λ n. made_on (system_of S.net (S.Handlers.meaning (S.handlers n))) S.Inputs.inputs };

    fn network(alloc: Global, stack: StackId, nodes: u8) -> Result<Self::Network, AllocError> {
        S::Network::of_stack(alloc, S::handlers(nodes), stack, S::net())
    }
}
