ghost use Rattle.std.specs.Prelude.{◌≡◌, ℕ, ◌+◌, ◌<◌, ◌≤◌, IsOk, IsTrue, OnOk};
ghost use Rattle.handler_trait.specs.Handling.{Does};
ghost use Rattle.handler_trait.specs.declared.handlers.TheConstants.{STEP_COST, SPENT_MAX};
ghost use Rattle.seqnum_xform.specs.Numbering.{has_seen, numbered_sound, numbered_spent, sequence_numbered};
ghost use Rattle.seqnum_xform.specs.NumberingLaws.{fresh, modest_input, modest_message, modest_timeout};

use crate::hand_on::hand_on;
use crate::{SeenNumbers, SeqState};
use handler_trait::{Effects, Handlers, LeavesRoom};
use std::alloc::{AllocError, Global};
use std::marker::Model;
use vst_base::{Node, SeqMsg};

/// Handlers whose packets are numbered: a packet that comes a second time does nothing. Contracts see the handlers within.
#[derive(Drop)]
pub struct SeqNum<H: Handlers> {
    inner: H,
}

impl<H: Handlers> Model for SeqNum<H> {
    ghost Value = { H };

    ghost view = { λ s. s.inner };
}

impl<H: Handlers> SeqNum<H> {
    /// These handlers with their packets numbered.
    pub fn new(inner: H) -> Self
        ensures { result ≡ inner }
    {
        SeqNum { inner }
    }
}

impl<H: Handlers> Handlers for SeqNum<H> {
    type State = SeqState<H::State>;

    type Input = H::Input;

    type Output = H::Output;

    type Msg = SeqMsg<H::Msg>;

    ghost meaning = { λ h. sequence_numbered (H.meaning h) };

    ghost sound = { numbered_sound H.sound };

    ghost spent = { numbered_spent H.spent };

    const SENDS: usize = H::SENDS;

    ghost SENDS = { H.SENDS };

    fn nodes(&self) -> u8 {
        self.inner.nodes()
    }

    fn takes_input(&self, node: Node) -> bool {
        self.inner.takes_input(node)
    }

    fn copy_input(&self, alloc: Global, input: &H::Input) -> Result<H::Input, AllocError> {
        self.inner.copy_input(alloc, input)
    }

    fn copy_msg(
        &self,
        alloc: Global,
        message: &SeqMsg<H::Msg>,
    ) -> Result<SeqMsg<H::Msg>, AllocError> {
        let inner = self.inner.copy_msg(alloc, &message.inner)?;
        Ok(SeqMsg {
            number: message.number,
            inner,
        })
    }

    fn init(&self, alloc: Global, node: Node) -> Result<SeqState<H::State>, AllocError> {
        let inner = self.inner.init(alloc, node)?;
        Ok(SeqState {
            inner,
            next: 0,
            seen: SeenNumbers::new(alloc),
        })
    }

    fn input(
        &self,
        alloc: Global,
        node: Node,
        state: &mut SeqState<H::State>,
        input: &H::Input,
        effects: &mut Effects<H::Output, SeqMsg<H::Msg>>,
    ) -> Result<(), AllocError> {
        let mut within = effects.lend_outputs(alloc, H::SENDS)?;
        self.inner
            .input(alloc, node, &mut state.inner, input, &mut within)?;
        hand_on(within, &mut state.next, effects);
        Ok(())
    }

    fn message(
        &self,
        alloc: Global,
        node: Node,
        state: &mut SeqState<H::State>,
        from: Node,
        message: &SeqMsg<H::Msg>,
        effects: &mut Effects<H::Output, SeqMsg<H::Msg>>,
    ) -> Result<(), AllocError>
        requires node { node < (H.meaning self.now).nodes }
        requires from { from < (H.meaning self.now).nodes }
        requires sound { numbered_sound H.sound self.now node state.old }
        requires budget { numbered_spent H.spent self.now state.old + STEP_COST ≤ SPENT_MAX }
        requires room { H.SENDS ≤ effects.old.send_places }
        ensures does { OnOk result (Does ((sequence_numbered (H.meaning self.now)).message node state.old from message.now) state.new
            effects.old effects.new) }
        ensures sound { OnOk result (numbered_sound H.sound self.now node state.new) }
        // A message with a number that was seen takes no memory.
        ensures repeat_succeeds { IsTrue (has_seen state.old.seen from message.now.number) → IsOk result }
    {
        if state.seen.has(from, message.number) {
            return Ok(());
        }
        state.seen.add(alloc, from, message.number)?;
        let mut within = effects.lend_outputs(alloc, H::SENDS)?;
        self.inner.message(
            alloc,
            node,
            &mut state.inner,
            from,
            &message.inner,
            &mut within,
        )?;
        hand_on(within, &mut state.next, effects);
        Ok(())
    }

    fn timeout(
        &self,
        alloc: Global,
        node: Node,
        state: &mut SeqState<H::State>,
        effects: &mut Effects<H::Output, SeqMsg<H::Msg>>,
    ) -> Result<(), AllocError> {
        let mut within = effects.lend_outputs(alloc, H::SENDS)?;
        self.inner
            .timeout(alloc, node, &mut state.inner, &mut within)?;
        hand_on(within, &mut state.next, effects);
        Ok(())
    }

    ghost few_sends = { H.few_sends };

    ghost fresh = { fresh H.meaning H.sound H.spent H.SENDS H.few_sends H.fresh };

    ghost modest_input = { modest_input H.meaning H.sound H.spent H.SENDS H.few_sends H.modest_input };

    ghost modest_message = { modest_message H.meaning H.sound H.spent H.SENDS H.few_sends H.modest_message };

    ghost modest_timeout = { modest_timeout H.meaning H.sound H.spent H.SENDS H.few_sends H.modest_timeout };
}

impl<H: LeavesRoom> LeavesRoom for SeqNum<H> {
    ghost leaves_room = { H.leaves_room };
}
