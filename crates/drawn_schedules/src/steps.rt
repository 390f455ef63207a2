use crate::flights::add_stubs;
use crate::gathered::Gathered;
use crate::words::{push_comma, push_numbered};
use crate::{Leads, Told};
use app_text::AppText;
use drawing::{Mark, Picture, Row};
use handler_trait::Handlers;
use std::alloc::{AllocError, Global};
use vst_base::Step;

// A step as a row, before what it told.
fn row_of<I>(gathered: &mut Gathered, step: &Step<I>) -> Result<Row, AllocError> {
    match step {
        Step::In(n, _) => gathered.at_node(Mark::Input, b"in", *n),
        Step::Deliver(k) => gathered.of_packet(Mark::Delivery, b"deliver", *k),
        Step::Tick(n) => gathered.at_node(Mark::Timer, b"tick", *n),
        Step::Dup(k) => gathered.of_packet(Mark::Copy, b"dup", *k),
        Step::Lose(k) => gathered.of_packet(Mark::Loss, b"lose", *k),
        Step::Crash(n) => gathered.at_node(Mark::Crash, b"crash", *n),
        Step::Reboot(n) => gathered.at_node(Mark::Reboot, b"reboot", *n),
    }
}

// Whether the step stops the node, or starts it again.
fn is_stopped<I>(step: &Step<I>, node: u8, was_down: bool) -> bool {
    match step {
        Step::Crash(n) if *n == u32::from(node) => true,
        Step::Reboot(n) if *n == u32::from(node) => false,
        _ => was_down,
    }
}

// Adds that a node leads in a term.
fn tell_term(told: &mut Vec<u8>, term: u64) -> Result<(), AllocError> {
    push_comma(told)?;
    push_numbered(told, b"leads in term", term)
}

impl Gathered {
    // Whether a node was down before this step.
    fn was_down(&self, node: u8) -> bool {
        match self.lives.get(usize::from(node)) {
            Some(life) => life.is_down(),
            None => false,
        }
    }

    // Notes whether a node is down, and in which term it leads, after a step in the next row.
    fn follow(
        &mut self,
        node: u8,
        is_down: bool,
        term: Option<u64>,
        drawn: &mut Row,
    ) -> Result<(), AllocError> {
        let row = self.row();
        let Some(life) = self.lives.get_mut(usize::from(node)) else {
            return Ok(());
        };
        let bars = &mut self.picture.bars;
        life.follow_down(bars, node, row, is_down)?;
        let is_new = life.follow_term(bars, node, row, term)?;
        match term {
            Some(term) if is_new => tell_term(&mut drawn.told, term),
            _ => Ok(()),
        }
    }

    // Notes what became of each node by a step in the next row.
    fn follow_all<H: Handlers, W: Leads<H>>(
        &mut self,
        network: &W,
        step: &Step<H::Input>,
        drawn: &mut Row,
    ) -> Result<(), AllocError>
        requires { W.sound network.now }
    {
        for node in 0..self.picture.nodes {
            let is_down = is_stopped(step, node, self.was_down(node));
            self.follow(node, is_down, network.leads_in(node), drawn)?;
        }
        Ok(())
    }

    /// A step that was taken is the next row.
    pub(crate) fn add<H, W, A>(
        &mut self,
        network: &W,
        step: &Step<A::Input>,
    ) -> Result<(), AllocError>
    where
        H: Handlers<Input = A::Input, Output = Told<A::Output>>,
        W: Leads<H>,
        A: AppText,
        requires { W.sound network.now }
    {
        let mut drawn = row_of(self, step)?;
        self.hear::<A>(network.trace().items(), &mut drawn)?;
        self.follow_all::<H, W>(network, step, &mut drawn)?;
        self.picture.rows.push(drawn)?;
        Ok(())
    }

    /// The picture, where the bars that are left end in the last row, with the packets no copy of which has come or is lost.
    pub(crate) fn finish(mut self) -> Result<Picture, AllocError> {
        let last = self.row();
        let mut node = 0u8;
        for life in &self.lives {
            life.end(&mut self.picture.bars, node, last)?;
            node = node.saturating_add(1);
        }
        add_stubs(&mut self.picture.stubs, &self.flights)?;
        Ok(self.picture)
    }
}
