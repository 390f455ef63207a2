use crate::columns::column_of;
use crate::flights::Flight;
use crate::lives::Life;
use crate::words::{push_comma, push_numbered};
use crate::{Sent, Told};
use app_text::AppText;
use drawing::{Arrow, MOST_ROWS, Mark, Picture, Row, Spot};
use std::alloc::{AllocError, Global};
use vst_base::{Item, Node};

/// What is drawn of a run so far, the packets that were sent, and the nodes.
#[derive(Drop)]
pub(crate) struct Gathered {
    pub(crate) alloc: Global,
    pub(crate) picture: Picture,
    pub(crate) flights: Vec<Flight>,
    pub(crate) lives: Vec<Life>,
}

// So many nodes, all up.
fn lives_of(alloc: Global, nodes: u8) -> Result<Vec<Life>, AllocError> {
    let mut lives = Vec::new(alloc);
    for _ in 0..nodes {
        lives.push(Life::new())?;
    }
    Ok(lives)
}

// Adds the texts of outputs, in order.
fn print_outputs<A: AppText>(outputs: &[A::Output], out: &mut Vec<u8>) -> Result<(), AllocError> {
    for output in outputs {
        push_comma(out)?;
        A::print_output(output, out)?;
    }
    Ok(())
}

impl Gathered {
    /// Nothing is drawn yet of a run on so many nodes.
    pub(crate) fn new(alloc: Global, title: Vec<u8>, nodes: u8) -> Result<Self, AllocError> {
        Ok(Gathered {
            alloc,
            picture: Picture {
                title,
                nodes,
                rows: Vec::new(alloc),
                arrows: Vec::new(alloc),
                stubs: Vec::new(alloc),
                bars: Vec::new(alloc),
                undrawn: 0,
            },
            flights: Vec::new(alloc),
            lives: lives_of(alloc, nodes)?,
        })
    }

    /// The row that is drawn next.
    pub(crate) fn row(&self) -> u16 {
        self.picture.rows.len().min(MOST_ROWS) as u16
    }

    /// A step at a node, where no packet comes.
    pub(crate) fn at_node(&self, mark: Mark, word: &[u8], node: u32) -> Result<Row, AllocError> {
        let mut label = Vec::new(self.alloc);
        push_numbered(&mut label, word, u64::from(node))?;
        Ok(Row {
            label,
            mark,
            column: column_of(node),
            from: column_of(node),
            heard: Vec::new(self.alloc),
            told: Vec::new(self.alloc),
        })
    }

    /// A step of a packet, to whose mark its way leads.
    pub(crate) fn of_packet(&mut self, mark: Mark, word: &[u8], k: u32) -> Result<Row, AllocError> {
        let row = self.row();
        let mut drawn = self.at_node(mark, word, k)?;
        let Some(flight) = self.flights.get_mut(k as usize) else {
            return Ok(drawn);
        };
        let to = flight.marked_at(mark, row);
        let from = flight.start_to(mark, to)?;
        drawn.column = to.column;
        drawn.from = from.column;
        drawn.heard = flight.words(self.alloc)?;
        self.picture.arrows.push(Arrow {
            from,
            to,
            mark,
            packet: k,
        })?;
        Ok(drawn)
    }

    // The packets that a node sent in the next row are under way.
    fn send_all(&mut self, from: Node, packets: &[Sent]) -> Result<(), AllocError> {
        let from = Spot {
            column: column_of(u32::from(from.index())),
            row: self.row(),
        };
        for sent in packets {
            self.flights.push(Flight::new(self.alloc, from, sent)?)?;
        }
        Ok(())
    }

    /// What an event at a node told in the next row: its outputs are noted, and its packets are under way.
    pub(crate) fn hear<A: AppText>(
        &mut self,
        items: &[Item<A::Input, Told<A::Output>>],
        drawn: &mut Row,
    ) -> Result<(), AllocError> {
        for item in items {
            match item {
                Item::Input(_, input) => A::print_input(input, &mut drawn.heard)?,
                Item::Output(node, told) => {
                    print_outputs::<A>(&told.outputs, &mut drawn.told)?;
                    self.send_all(*node, &told.sent)?;
                }
            }
        }
        Ok(())
    }
}
