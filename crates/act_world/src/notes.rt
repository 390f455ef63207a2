ghost use Rattle.std.specs.Prelude.{◌≡◌, ◌+◌, ◌<◌, ◌^◌, [], ◌∷◌, ◌++◌, length, OnOk};
ghost use Rattle.act_world.specs.Notes.{counted, input_in, noted, output_sent, told};

use std::alloc::{AllocError, Global};
use std::marker::Model;
use vst_base::{Node, Step};

/// A turn that counts, as clients saw it: its node, its input if it has one, and those of its outputs that were sent.
#[derive(Drop)]
pub struct ListedTurn<I, O> {
    node: Node,
    input: Option<I>,
    sent: Vec<O>,
}

impl<I, O> Model for ListedTurn<I, O> {
    ghost use Rattle.act_world.specs.Views.{SeenTurn};

    ghost Value = { SeenTurn I O };

    ghost view = { λ t. record { node = t.node; input = t.input; sent = t.sent.items } };
}

impl<I: Drop, O: Drop> ListedTurn<I, O> {
    /// Its node.
    pub fn node(&self) -> Node
        ensures { result ≡ self.now.node }
    {
        self.node
    }

    /// Its input, if it has one.
    pub fn input(&self) -> &Option<I>
        ensures { result.now ≡ self.now.input }
    {
        &self.input
    }

    /// Those of its outputs that were sent, in order.
    pub fn sent(&self) -> &[O]
        ensures { result.now ≡ self.now.sent }
    {
        &self.sent
    }

    // It has sent one more.
    fn add(&mut self, output: O) -> Result<(), AllocError>
        ensures { OnOk result (self.new ≡ told output self.old) }
    {
        self.sent.push(output)?;
        Ok(())
    }
}

/// What is written down of a run: the run of whole events, the turns that count, and how many packets that run has sent.
#[derive(Drop)]
pub struct Notes<I, O> {
    alloc: Global,
    image: Vec<Step<I>>,
    listed: Vec<ListedTurn<I, O>>,
    sent: u32,
}

impl<I, O> Model for Notes<I, O> {
    ghost use Rattle.act_world.specs.Views.{NotesView};

    ghost Value = { NotesView I O };

    ghost view = { λ n. record { image = n.image.items; listed = n.listed.items; sent = n.sent } };
}

impl<I: Drop, O: Drop> Notes<I, O> {
    /// Nothing yet. It takes no memory.
    pub fn new(alloc: Global) -> Self
        ensures image { result.image ≡ [] }
        ensures listed { result.listed ≡ [] }
        ensures sent { result.sent ≡ 0 }
    {
        Notes {
            alloc,
            image: Vec::new(alloc),
            listed: Vec::new(alloc),
            sent: 0,
        }
    }

    /// The run of whole events, in order.
    pub fn image(&self) -> &[Step<I>]
        ensures { result.now ≡ self.now.image }
    {
        &self.image
    }

    /// The turns that count, in the order in which they count.
    pub fn listed(&self) -> &[ListedTurn<I, O>]
        ensures { result.now ≡ self.now.listed }
    {
        &self.listed
    }

    /// How many packets the run of whole events has sent.
    pub fn sent(&self) -> u32
        ensures { result ≡ self.now.sent }
    {
        self.sent
    }

    /// A turn of the node counts, with this event, a copy of its input and so many sends.
    pub fn count(
        &mut self,
        node: Node,
        event: Step<I>,
        input: Option<I>,
        sends: u32,
    ) -> Result<(), AllocError>
        requires input { input ≡ input_in event }
        requires fits { self.old.sent + sends < 2 ^ 32 }
        ensures { OnOk result (self.new ≡ counted self.old node event sends) }
    {
        self.image.push(event)?;
        self.listed.push(ListedTurn {
            node,
            input,
            sent: Vec::new(self.alloc),
        })?;
        self.sent += sends;
        Ok(())
    }

    /// The turn at this place has sent this output.
    pub fn tell(&mut self, place: usize, output: O) -> Result<(), AllocError>
        requires { place < length self.old.listed }
        ensures { OnOk result (self.new ≡ output_sent self.old place output) }
    {
        self.listed[place].add(output)
    }

    /// The network itself does this.
    pub fn add(&mut self, step: Step<I>) -> Result<(), AllocError>
        ensures { OnOk result (self.new ≡ noted self.old step) }
    {
        self.image.push(step)?;
        Ok(())
    }
}
