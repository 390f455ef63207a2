ghost use Rattle.wired.specs.Wiring.{wired};
ghost use Rattle.wired.specs.WiringLaws.{fresh, modest_input, modest_message, modest_timeout};

use crate::hand_on::hand_on;
use crate::{Cluster, Packet, hear};
use handler_trait::{Effects, Handlers, Rebootable};
use std::alloc::{AllocError, Global};
use std::marker::Model;
use vst_base::Node;
use wire_messages::Wire;

/// Handlers whose packets are bytes: what is sent is the datagram of each message, and bytes that are no message to the node that
/// they come to do nothing. Contracts see the handlers within, and the stack and the name of their cluster.
#[derive(Drop)]
pub struct Wired<H: Handlers> {
    inner: H,
    cluster: Cluster,
}

impl<H: Handlers> Model for Wired<H> {
    ghost use Rattle.wired.specs.Wiring.{Named};

    ghost Value = { Named H };

    ghost view = { λ w. record { inner = w.inner; stack = w.cluster.stack; name = w.cluster.name } };
}

impl<H: Handlers> Wired<H> {
    ghost use Rattle.std.specs.Prelude.{◌≡◌};

    /// These handlers, with their packets as those of a cluster.
    pub fn new(inner: H, cluster: Cluster) -> Self
        ensures { result ≡ record { inner = inner; stack = cluster.stack; name = cluster.name } }
    {
        Wired { inner, cluster }
    }

    /// The handlers within.
    pub fn inner(&self) -> &H
        ensures { result.now ≡ self.now.inner }
    {
        &self.inner
    }
}

impl<H: Handlers> Handlers for Wired<H>
where
    H::Msg: Wire,
{
    type State = H::State;

    type Input = H::Input;

    type Output = H::Output;

    type Msg = Packet;

    ghost meaning = { λ w. wired H.Msg.format w.stack w.name (H.meaning w.inner) };

    ghost sound = { λ w. H.sound w.inner };

    ghost spent = { λ w. H.spent w.inner };

    const SENDS: usize = H::SENDS;

    ghost SENDS = { H.SENDS };

    fn nodes(&self) -> u8 {
        self.inner.nodes()
    }

    fn takes_input(&self, node: Node) -> bool {
        self.inner.takes_input(node)
    }

    fn copy_input(&self, alloc: Global, input: &H::Input) -> Result<H::Input, AllocError> {
        self.inner.copy_input(alloc, input)
    }

    fn copy_msg(&self, alloc: Global, message: &Packet) -> Result<Packet, AllocError> {
        message.copy(alloc)
    }

    fn init(&self, alloc: Global, node: Node) -> Result<H::State, AllocError> {
        self.inner.init(alloc, node)
    }

    fn input(
        &self,
        alloc: Global,
        node: Node,
        state: &mut H::State,
        input: &H::Input,
        effects: &mut Effects<H::Output, Packet>,
    ) -> Result<(), AllocError> {
        let mut within = effects.lend_outputs(alloc, H::SENDS)?;
        self.inner.input(alloc, node, state, input, &mut within)?;
        hand_on(alloc, &self.cluster, node, within, effects)
    }

    fn message(
        &self,
        alloc: Global,
        node: Node,
        state: &mut H::State,
        from: Node,
        message: &Packet,
        effects: &mut Effects<H::Output, Packet>,
    ) -> Result<(), AllocError> {
        let Some(heard) = hear::<H::Msg>(alloc, &self.cluster, from, node, message)? else {
            return Ok(());
        };
        let mut within = effects.lend_outputs(alloc, H::SENDS)?;
        self.inner
            .message(alloc, node, state, from, &heard, &mut within)?;
        hand_on(alloc, &self.cluster, node, within, effects)
    }

    fn timeout(
        &self,
        alloc: Global,
        node: Node,
        state: &mut H::State,
        effects: &mut Effects<H::Output, Packet>,
    ) -> Result<(), AllocError> {
        let mut within = effects.lend_outputs(alloc, H::SENDS)?;
        self.inner.timeout(alloc, node, state, &mut within)?;
        hand_on(alloc, &self.cluster, node, within, effects)
    }

    ghost few_sends = { H.few_sends };

    ghost fresh = { fresh H.meaning H.spent H.fresh };

    ghost modest_input = { modest_input H.Msg.format H.meaning H.sound H.spent H.SENDS H.modest_input };

    ghost modest_message = { modest_message H.Msg.format H.meaning H.sound H.spent H.SENDS H.modest_message };

    ghost modest_timeout = { modest_timeout H.Msg.format H.meaning H.sound H.spent H.SENDS H.modest_timeout };
}

impl<H: Rebootable> Rebootable for Wired<H>
where
    H::Msg: Wire,
{
    type Kept = H::Kept;

    ghost recovery = { λ w. H.recovery w.inner };

    ghost fits = { λ w. H.fits w.inner };

    fn keep(&self, alloc: Global, state: &H::State) -> Result<H::Kept, AllocError> {
        self.inner.keep(alloc, state)
    }

    fn reboot(&self, alloc: Global, node: Node, kept: H::Kept) -> Result<H::State, AllocError> {
        self.inner.reboot(alloc, node, kept)
    }

    ghost rebooted_fresh = { λ w. H.rebooted_fresh w.inner };
}
