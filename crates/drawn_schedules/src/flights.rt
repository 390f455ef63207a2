use crate::Sent;
use crate::columns::column_of;
use drawing::{Mark, Spot, Stub};
use std::alloc::{AllocError, Global};

/// A packet that was sent: its two ends, the row in which it was, what it says, and where its copies were made that are not drawn yet.
#[derive(Drop)]
pub(crate) struct Flight {
    from: Spot,
    to: u16,
    words: Vec<u8>,
    forks: Vec<Spot>,
    is_drawn: bool,
}

impl Flight {
    /// A packet that is sent from a place.
    pub(crate) fn new(alloc: Global, from: Spot, sent: &Sent) -> Result<Self, AllocError> {
        Ok(Flight {
            from,
            to: column_of(u32::from(sent.to.index())),
            words: sent.words.to_vec(alloc)?,
            forks: Vec::new(alloc),
            is_drawn: false,
        })
    }

    // The place on its way, in a row: between the lines of its source and of the next node towards its destination.
    fn on_its_way(&self, row: u16) -> Spot {
        let column = if self.to < self.from.column {
            self.from.column.saturating_sub(1)
        } else {
            self.from.column.saturating_add(1)
        };
        Spot { column, row }
    }

    // Where the next way that is drawn of it begins: the first where it was sent, and others where it was copied.
    fn next_start(&mut self) -> Spot {
        if self.is_drawn {
            self.forks.pop().unwrap_or(self.from)
        } else {
            self.is_drawn = true;
            self.from
        }
    }

    /// Where a step of it is marked, in a row: a delivery at its destination, and others on its way.
    pub(crate) fn marked_at(&self, mark: Mark, row: u16) -> Spot {
        match mark {
            Mark::Delivery => Spot {
                column: self.to,
                row,
            },
            _ => self.on_its_way(row),
        }
    }

    /// Where the way begins that leads to this place, at which a step is marked: that to a copy where it was sent.
    pub(crate) fn start_to(&mut self, mark: Mark, place: Spot) -> Result<Spot, AllocError> {
        match mark {
            Mark::Copy => {
                self.forks.push(place)?;
                Ok(self.from)
            }
            _ => Ok(self.next_start()),
        }
    }

    // The beginning of its way, if no step brought a copy of it to an end.
    fn stub(&self, packet: u32) -> Option<Stub> {
        if self.is_drawn {
            return None;
        }
        Some(Stub {
            from: self.from,
            to: self.to,
            packet,
        })
    }

    /// What it says.
    pub(crate) fn words(&self, alloc: Global) -> Result<Vec<u8>, AllocError> {
        self.words.to_vec(alloc)
    }
}

/// Adds the packets of which no copy was delivered or lost, with their numbers.
pub(crate) fn add_stubs(stubs: &mut Vec<Stub>, flights: &[Flight]) -> Result<(), AllocError> {
    let mut packet = 0u32;
    for flight in flights {
        if let Some(stub) = flight.stub(packet) {
            stubs.push(stub)?;
        }
        packet = packet.saturating_add(1);
    }
    Ok(())
}
