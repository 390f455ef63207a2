ghost use Rattle.wired.specs.Saving.{saved, saved_recovery, saved_sound, saved_spent};
ghost use Rattle.wired.specs.SavingLaws.{fresh, modest_input, modest_message, modest_timeout, rebooted_fresh};

use crate::{Cluster, SavedBytes, Saves, SeatState};
use handler_trait::{Effects, Handlers, Rebootable};
use std::alloc::{AllocError, Global};
use std::marker::Model;
use vst_base::Node;

/// Handlers that keep bytes: a node that stops writes what it keeps as its own, and one that starts on bytes that are none of its own
/// has its first state. Contracts see the handlers within, and the stack and the name of their cluster.
#[derive(Drop)]
pub struct Saved<H: Saves> {
    inner: H,
    cluster: Cluster,
}

impl<H: Saves> Model for Saved<H> {
    ghost use Rattle.wired.specs.Wiring.{Named};

    ghost Value = { Named H };

    ghost view = { λ s. record { inner = s.inner; stack = s.cluster.stack; name = s.cluster.name } };
}

impl<H: Saves> Saved<H> {
    ghost use Rattle.std.specs.Prelude.{◌≡◌};

    /// These handlers, whose nodes keep the bytes of a cluster.
    pub fn new(inner: H, cluster: Cluster) -> Self
        ensures { result ≡ record { inner = inner; stack = cluster.stack; name = cluster.name } }
    {
        Saved { inner, cluster }
    }

    /// The handlers within.
    pub fn inner(&self) -> &H
        ensures { result.now ≡ self.now.inner }
    {
        &self.inner
    }
}

impl<H: Saves> Handlers for Saved<H> {
    type State = SeatState<H::State>;

    type Input = H::Input;

    type Output = H::Output;

    type Msg = H::Msg;

    ghost meaning = { λ w. saved (H.meaning w.inner) };

    ghost sound = { saved_sound H.sound };

    ghost spent = { saved_spent H.spent };

    const SENDS: usize = H::SENDS;

    ghost SENDS = { H.SENDS };

    fn nodes(&self) -> u8 {
        self.inner.nodes()
    }

    fn takes_input(&self, node: Node) -> bool {
        self.inner.takes_input(node)
    }

    fn copy_input(&self, alloc: Global, input: &H::Input) -> Result<H::Input, AllocError> {
        self.inner.copy_input(alloc, input)
    }

    fn copy_msg(&self, alloc: Global, message: &H::Msg) -> Result<H::Msg, AllocError> {
        self.inner.copy_msg(alloc, message)
    }

    fn init(&self, alloc: Global, node: Node) -> Result<SeatState<H::State>, AllocError> {
        let inner = self.inner.init(alloc, node)?;
        Ok(SeatState { me: node, inner })
    }

    fn input(
        &self,
        alloc: Global,
        node: Node,
        state: &mut SeatState<H::State>,
        input: &H::Input,
        effects: &mut Effects<H::Output, H::Msg>,
    ) -> Result<(), AllocError> {
        self.inner
            .input(alloc, node, &mut state.inner, input, effects)
    }

    fn message(
        &self,
        alloc: Global,
        node: Node,
        state: &mut SeatState<H::State>,
        from: Node,
        message: &H::Msg,
        effects: &mut Effects<H::Output, H::Msg>,
    ) -> Result<(), AllocError> {
        self.inner
            .message(alloc, node, &mut state.inner, from, message, effects)
    }

    fn timeout(
        &self,
        alloc: Global,
        node: Node,
        state: &mut SeatState<H::State>,
        effects: &mut Effects<H::Output, H::Msg>,
    ) -> Result<(), AllocError> {
        self.inner.timeout(alloc, node, &mut state.inner, effects)
    }

    ghost few_sends = { H.few_sends };

    ghost fresh = { fresh H.meaning H.sound H.spent H.SENDS H.fresh };

    ghost modest_input = { modest_input H.meaning H.sound H.spent H.SENDS H.modest_input };

    ghost modest_message = { modest_message H.meaning H.sound H.spent H.SENDS H.modest_message };

    ghost modest_timeout = { modest_timeout H.meaning H.sound H.spent H.SENDS H.modest_timeout };
}

impl<H: Saves> Rebootable for Saved<H> {
    type Kept = SavedBytes;

    ghost recovery = { λ w. saved_recovery (H.saving w.inner w.stack w.name) (H.meaning w.inner) (H.recovery w.inner) };

    ghost fits = { λ _ _. Unit {0} };

    fn keep(&self, alloc: Global, state: &SeatState<H::State>) -> Result<SavedBytes, AllocError> {
        let bytes = self
            .inner
            .save(alloc, &self.cluster, state.me, &state.inner)?;
        Ok(SavedBytes::new(bytes))
    }

    fn reboot(
        &self,
        alloc: Global,
        node: Node,
        kept: SavedBytes,
    ) -> Result<SeatState<H::State>, AllocError> {
        let found = self
            .inner
            .restore(alloc, &self.cluster, node, kept.bytes())?;
        let inner = match found {
            Some(found) => self.inner.reboot(alloc, node, found)?,
            None => self.inner.init(alloc, node)?,
        };
        Ok(SeatState { me: node, inner })
    }

    ghost rebooted_fresh = { λ w n bytes below fits. rebooted_fresh H.meaning H.sound H.spent H.SENDS H.recovery H.fits H.saving H.fresh
        H.rebooted_fresh H.found_fits w n bytes below };
}
