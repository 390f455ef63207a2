ghost use Rattle.drawn_schedules.specs.Telling.{telling};
ghost use Rattle.drawn_schedules.specs.TellingLaws.{modest_input, modest_message, modest_timeout};

use crate::hand_on::hand_on;
use crate::{Says, Told};
use handler_trait::{Effects, Handlers, Rebootable};
use std::alloc::{AllocError, Global};
use std::marker::Model;
use vst_base::Node;

/// Handlers that tell of each event, as its one output, what those within put out, and what the packets say that it sends. Contracts see
/// the handlers within.
#[derive(Drop)]
pub struct Telling<H: Handlers> {
    inner: H,
}

impl<H: Handlers> Model for Telling<H> {
    ghost Value = { H };

    ghost view = { λ t. t.inner };
}

impl<H: Handlers> Telling<H> {
    ghost use Rattle.std.specs.Prelude.{◌≡◌};

    /// These handlers.
    pub fn new(inner: H) -> Self
        ensures { result ≡ inner }
    {
        Telling { inner }
    }

    /// The handlers within.
    pub fn inner(&self) -> &H
        ensures { result.now ≡ self.now }
    {
        &self.inner
    }
}

impl<H: Handlers> Handlers for Telling<H>
where
    H::Msg: Says,
{
    type State = H::State;

    type Input = H::Input;

    type Output = Told<H::Output>;

    type Msg = H::Msg;

    ghost meaning = { λ h. telling (H.meaning h) };

    ghost sound = { H.sound };

    ghost spent = { H.spent };

    const SENDS: usize = H::SENDS;

    ghost SENDS = { H.SENDS };

    fn nodes(&self) -> u8 {
        self.inner.nodes()
    }

    fn takes_input(&self, node: Node) -> bool {
        self.inner.takes_input(node)
    }

    fn copy_input(&self, alloc: Global, input: &H::Input) -> Result<H::Input, AllocError> {
        self.inner.copy_input(alloc, input)
    }

    fn copy_msg(&self, alloc: Global, message: &H::Msg) -> Result<H::Msg, AllocError> {
        self.inner.copy_msg(alloc, message)
    }

    fn init(&self, alloc: Global, node: Node) -> Result<H::State, AllocError> {
        self.inner.init(alloc, node)
    }

    fn input(
        &self,
        alloc: Global,
        node: Node,
        state: &mut H::State,
        input: &H::Input,
        effects: &mut Effects<Told<H::Output>, H::Msg>,
    ) -> Result<(), AllocError> {
        let mut within = Effects::with_capacity(alloc, 0, H::SENDS)?;
        self.inner.input(alloc, node, state, input, &mut within)?;
        hand_on(alloc, within, effects)
    }

    fn message(
        &self,
        alloc: Global,
        node: Node,
        state: &mut H::State,
        from: Node,
        message: &H::Msg,
        effects: &mut Effects<Told<H::Output>, H::Msg>,
    ) -> Result<(), AllocError> {
        let mut within = Effects::with_capacity(alloc, 0, H::SENDS)?;
        self.inner
            .message(alloc, node, state, from, message, &mut within)?;
        hand_on(alloc, within, effects)
    }

    fn timeout(
        &self,
        alloc: Global,
        node: Node,
        state: &mut H::State,
        effects: &mut Effects<Told<H::Output>, H::Msg>,
    ) -> Result<(), AllocError> {
        let mut within = Effects::with_capacity(alloc, 0, H::SENDS)?;
        self.inner.timeout(alloc, node, state, &mut within)?;
        hand_on(alloc, within, effects)
    }

    ghost few_sends = { H.few_sends };

    ghost fresh = { H.fresh };

    ghost modest_input = { modest_input H.meaning H.sound H.spent H.SENDS H.modest_input };

    ghost modest_message = { modest_message H.meaning H.sound H.spent H.SENDS H.modest_message };

    ghost modest_timeout = { modest_timeout H.meaning H.sound H.spent H.SENDS H.modest_timeout };
}

impl<H: Rebootable> Rebootable for Telling<H>
where
    H::Msg: Says,
{
    type Kept = H::Kept;

    ghost recovery = { H.recovery };

    ghost fits = { H.fits };

    fn keep(&self, alloc: Global, state: &H::State) -> Result<H::Kept, AllocError> {
        self.inner.keep(alloc, state)
    }

    fn reboot(&self, alloc: Global, node: Node, kept: H::Kept) -> Result<H::State, AllocError> {
        self.inner.reboot(alloc, node, kept)
    }

    ghost rebooted_fresh = { H.rebooted_fresh };
}
