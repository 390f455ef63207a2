ghost use Rattle.std.specs.Prelude.{◌≡◌, ℕ, ◌+◌, ◌<◌, ◌≤◌, OnOk};
ghost use Rattle.handler_trait.specs.Handling.{Does};
ghost use Rattle.handler_trait.specs.declared.handlers.TheConstants.{STEP_COST, SPENT_MAX};
ghost use Rattle.fifo_xform.specs.Fifo.{fifo, fifo_sound, fifo_spent, numbering};
ghost use Rattle.fifo_xform.specs.FifoLaws.{fresh, modest_input, modest_message, modest_timeout};
ghost use Rattle.fifo_xform.specs.Peers.{numbered_packets};

use crate::hand_on::hand_on;
use crate::{FifoState, Peers};
use handler_trait::{Effects, Handlers, LeavesRoom};
use std::alloc::{AllocError, Global};
use std::marker::Model;
use vst_base::{Node, SeqMsg};

/// Handlers over FIFO channels: each node numbers its packets by destination, and gives those of a sender to the handlers within in the
/// order of their numbers, one in an event. A content that comes early is held back, until a tick after its turn has come gives it, or a
/// further copy of it that comes in turn takes its place. So a node holds the contents that came early and were not given yet, one of
/// each number; a packet that is lost would hold back all after it of the same sender for ever. Contracts see the handlers within.
#[derive(Drop)]
pub struct Fifo<H: Handlers> {
    inner: H,
}

impl<H: Handlers> Model for Fifo<H> {
    ghost Value = { H };

    ghost view = { λ f. f.inner };
}

impl<H: Handlers> Fifo<H> {
    /// These handlers with their packets in order.
    pub fn new(inner: H) -> Self
        ensures { result ≡ inner }
    {
        Fifo { inner }
    }

    // The handlers within are given a content of a sender.
    fn give(
        &self,
        alloc: Global,
        node: Node,
        state: &mut FifoState<H::State, H::Msg>,
        from: Node,
        content: &H::Msg,
        effects: &mut Effects<H::Output, SeqMsg<H::Msg>>,
    ) -> Result<(), AllocError>
        requires node { node < (H.meaning self.now).nodes }
        requires from { from < (H.meaning self.now).nodes }
        requires sound { fifo_sound H.sound self.now node state.old }
        requires budget { H.spent self.now state.old.inner + STEP_COST ≤ SPENT_MAX }
        requires numbers { numbered_packets state.old.peers + STEP_COST ≤ SPENT_MAX }
        requires room { H.SENDS ≤ effects.old.send_places }
        ensures does { OnOk result (Does (numbering state.old.peers ((H.meaning self.now).message node state.old.inner from content.now))
            state.new effects.old effects.new) }
        ensures sound { OnOk result (fifo_sound H.sound self.now node state.new) }
    {
        let mut within = effects.lend_outputs(alloc, H::SENDS)?;
        self.inner
            .message(alloc, node, &mut state.inner, from, content, &mut within)?;
        hand_on(alloc, within, &mut state.peers, effects)
    }
}

#[tactic(auto, using(crate::proofs::Placing::numbers))]
impl<H: Handlers> Handlers for Fifo<H> {
    type State = FifoState<H::State, H::Msg>;

    type Input = H::Input;

    type Output = H::Output;

    type Msg = SeqMsg<H::Msg>;

    ghost meaning = { λ h. fifo (H.meaning h) };

    ghost sound = { fifo_sound H.sound };

    ghost spent = { fifo_spent H.spent };

    const SENDS: usize = H::SENDS;

    ghost SENDS = { H.SENDS };

    fn nodes(&self) -> u8 {
        self.inner.nodes()
    }

    fn takes_input(&self, node: Node) -> bool {
        self.inner.takes_input(node)
    }

    fn copy_input(&self, alloc: Global, input: &H::Input) -> Result<H::Input, AllocError> {
        self.inner.copy_input(alloc, input)
    }

    fn copy_msg(
        &self,
        alloc: Global,
        message: &SeqMsg<H::Msg>,
    ) -> Result<SeqMsg<H::Msg>, AllocError> {
        let inner = self.inner.copy_msg(alloc, &message.inner)?;
        Ok(SeqMsg {
            number: message.number,
            inner,
        })
    }

    fn init(&self, alloc: Global, node: Node) -> Result<FifoState<H::State, H::Msg>, AllocError> {
        let inner = self.inner.init(alloc, node)?;
        Ok(FifoState {
            inner,
            peers: Peers::new(alloc),
        })
    }

    fn input(
        &self,
        alloc: Global,
        node: Node,
        state: &mut FifoState<H::State, H::Msg>,
        input: &H::Input,
        effects: &mut Effects<H::Output, SeqMsg<H::Msg>>,
    ) -> Result<(), AllocError> {
        let mut within = effects.lend_outputs(alloc, H::SENDS)?;
        self.inner
            .input(alloc, node, &mut state.inner, input, &mut within)?;
        hand_on(alloc, within, &mut state.peers, effects)
    }

    fn message(
        &self,
        alloc: Global,
        node: Node,
        state: &mut FifoState<H::State, H::Msg>,
        from: Node,
        message: &SeqMsg<H::Msg>,
        effects: &mut Effects<H::Output, SeqMsg<H::Msg>>,
    ) -> Result<(), AllocError> {
        if state.peers.expects(from, message.number) {
            state.peers.pass(alloc, from)?;
            return self.give(alloc, node, state, from, &message.inner, effects);
        }
        if state.peers.is_early(from, message.number) {
            let content = self.inner.copy_msg(alloc, &message.inner)?;
            state.peers.hold(alloc, from, message.number, content)?;
        }
        Ok(())
    }

    fn timeout(
        &self,
        alloc: Global,
        node: Node,
        state: &mut FifoState<H::State, H::Msg>,
        effects: &mut Effects<H::Output, SeqMsg<H::Msg>>,
    ) -> Result<(), AllocError> {
        if let Some((from, content)) = state.peers.take_ready(self.inner.nodes()) {
            return self.give(alloc, node, state, from, &content, effects);
        }
        let mut within = effects.lend_outputs(alloc, H::SENDS)?;
        self.inner
            .timeout(alloc, node, &mut state.inner, &mut within)?;
        hand_on(alloc, within, &mut state.peers, effects)
    }

    ghost few_sends = { H.few_sends };

    ghost fresh = { fresh H.meaning H.sound H.spent H.SENDS H.few_sends H.fresh };

    ghost modest_input = { modest_input H.meaning H.sound H.spent H.SENDS H.few_sends H.modest_input };

    ghost modest_message = { modest_message H.meaning H.sound H.spent H.SENDS H.few_sends H.modest_message };

    ghost modest_timeout = { modest_timeout H.meaning H.sound H.spent H.SENDS H.few_sends H.modest_timeout H.modest_message };
}

impl<H: LeavesRoom> LeavesRoom for Fifo<H> {
    ghost leaves_room = { H.leaves_room };
}
