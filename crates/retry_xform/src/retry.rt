ghost use Rattle.std.specs.Prelude.{◌≡◌, ℕ, ◌+◌, ◌<◌, ◌≤◌, IsOk, OnOk};
ghost use Rattle.handler_trait.specs.Handling.{Does};
ghost use Rattle.handler_trait.specs.declared.handlers.TheConstants.{STEP_COST, SPENT_MAX};
ghost use Rattle.retry_xform.specs.Retransmission.{retrying, retrying_sound, retrying_spent};
ghost use Rattle.retry_xform.specs.RetransmissionLaws.{few_sends, fresh, modest_input, modest_message, modest_timeout};

use crate::hand_on::hand_on;
use crate::resend::resend;
use crate::{KeptPackets, RetryState};
use handler_trait::{Effects, Handlers, LeavesRoom};
use std::alloc::{AllocError, Global};
use std::marker::Model;
use vst_base::{Node, RetryMsg};

/// Handlers whose packets are kept and sent again until they are acknowledged. A packet that comes is given to the handlers within
/// each time, and acknowledged each time. Contracts see the handlers within.
#[derive(Drop)]
pub struct Retry<H: LeavesRoom> {
    inner: H,
}

impl<H: LeavesRoom> Model for Retry<H> {
    ghost Value = { H };

    ghost view = { λ s. s.inner };
}

impl<H: LeavesRoom> Retry<H> {
    /// These handlers with their packets sent again until they are acknowledged.
    pub fn new(inner: H) -> Self
        ensures { result ≡ inner }
    {
        Retry { inner }
    }
}

impl<H: LeavesRoom> Handlers for Retry<H> {
    type State = RetryState<H::State, H::Msg>;

    type Input = H::Input;

    type Output = H::Output;

    type Msg = RetryMsg<H::Msg>;

    ghost meaning = { λ h. retrying (H.Handlers.meaning h) };

    ghost sound = { retrying_sound H.Handlers.meaning H.Handlers.sound };

    ghost spent = { retrying_spent H.Handlers.spent };

    const SENDS: usize = H::SENDS + 1;

    ghost SENDS = { H.Handlers.SENDS + 1 };

    fn nodes(&self) -> u8 {
        self.inner.nodes()
    }

    fn takes_input(&self, node: Node) -> bool {
        self.inner.takes_input(node)
    }

    fn copy_input(&self, alloc: Global, input: &H::Input) -> Result<H::Input, AllocError> {
        self.inner.copy_input(alloc, input)
    }

    fn copy_msg(
        &self,
        alloc: Global,
        message: &RetryMsg<H::Msg>,
    ) -> Result<RetryMsg<H::Msg>, AllocError> {
        match message {
            RetryMsg::Data { number, inner } => Ok(RetryMsg::Data {
                number: *number,
                inner: self.inner.copy_msg(alloc, inner)?,
            }),
            RetryMsg::Ack { number } => Ok(RetryMsg::Ack { number: *number }),
        }
    }

    fn init(&self, alloc: Global, node: Node) -> Result<RetryState<H::State, H::Msg>, AllocError> {
        let inner = self.inner.init(alloc, node)?;
        Ok(RetryState {
            inner,
            next: 0,
            kept: KeptPackets::new(alloc)?,
        })
    }

    fn input(
        &self,
        alloc: Global,
        node: Node,
        state: &mut RetryState<H::State, H::Msg>,
        input: &H::Input,
        effects: &mut Effects<H::Output, RetryMsg<H::Msg>>,
    ) -> Result<(), AllocError> {
        let mut within = effects.lend_outputs(alloc, H::SENDS)?;
        self.inner
            .input(alloc, node, &mut state.inner, input, &mut within)?;
        hand_on(
            alloc,
            &self.inner,
            within,
            &mut state.next,
            &mut state.kept,
            effects,
        )?;
        Ok(())
    }

    fn message(
        &self,
        alloc: Global,
        node: Node,
        state: &mut RetryState<H::State, H::Msg>,
        from: Node,
        message: &RetryMsg<H::Msg>,
        effects: &mut Effects<H::Output, RetryMsg<H::Msg>>,
    ) -> Result<(), AllocError> {
        match message {
            RetryMsg::Data { number, inner } => {
                let mut within = effects.lend_outputs(alloc, H::SENDS)?;
                self.inner
                    .message(alloc, node, &mut state.inner, from, inner, &mut within)?;
                hand_on(
                    alloc,
                    &self.inner,
                    within,
                    &mut state.next,
                    &mut state.kept,
                    effects,
                )?;
                effects.send(from, RetryMsg::Ack { number: *number });
            }
            RetryMsg::Ack { number } => state.kept.acknowledge(from, *number),
        }
        Ok(())
    }

    fn timeout(
        &self,
        alloc: Global,
        node: Node,
        state: &mut RetryState<H::State, H::Msg>,
        effects: &mut Effects<H::Output, RetryMsg<H::Msg>>,
    ) -> Result<(), AllocError> {
        let mut within = effects.lend_outputs(alloc, H::SENDS)?;
        self.inner
            .timeout(alloc, node, &mut state.inner, &mut within)?;
        let has_kept = !state.kept.is_empty();
        hand_on(
            alloc,
            &self.inner,
            within,
            &mut state.next,
            &mut state.kept,
            effects,
        )?;
        if has_kept {
            resend(alloc, &self.inner, &mut state.kept, effects)?;
        }
        Ok(())
    }

    ghost few_sends = { few_sends H.leaves_room };

    ghost fresh = { fresh H.Handlers.meaning H.Handlers.sound H.Handlers.spent H.Handlers.SENDS H.leaves_room H.Handlers.fresh };

    ghost modest_input = { modest_input H.Handlers.meaning H.Handlers.sound H.Handlers.spent H.Handlers.SENDS H.leaves_room H.Handlers.modest_input };

    ghost modest_message = { modest_message H.Handlers.meaning H.Handlers.sound H.Handlers.spent H.Handlers.SENDS H.leaves_room H.Handlers.modest_message };

    ghost modest_timeout = { modest_timeout H.Handlers.meaning H.Handlers.sound H.Handlers.spent H.Handlers.SENDS H.leaves_room H.Handlers.modest_timeout };
}
