ghost use Rattle.std.specs.Prelude.{◌≡◌, ◌+◌, ◌<◌, ◌^◌, Some, IfOk, IsSome};
ghost use Rattle.net_semantics.specs.Held.{held_less, held_more};
ghost use Rattle.act_world.specs.Flights.{flight_sent, with_packet};

use std::alloc::{AllocError, Global};
use std::marker::Model;
use vst_base::Node;

/// A packet that was sent, with its number in the run of whole events. Its content goes with the last copy in flight.
#[derive(Drop)]
pub struct Flight<M> {
    source: Node,
    destination: Node,
    copies: u32,
    number: u32,
    content: Option<Box<M>>,
}

impl<M> Model for Flight<M> {
    ghost use Rattle.std.specs.Prelude.{option_map};
    ghost use Rattle.act_world.specs.Views.{FlightView};

    ghost Value = { FlightView M };

    ghost view = { λ f. record {
      packet = record { source = f.source; destination = f.destination; copies = f.copies; content = option_map (λ b. b.value) f.content };
      number = f.number;
    } };
}

impl<M: Drop> Flight<M> {
    /// A packet that was just sent.
    pub fn new(
        alloc: Global,
        source: Node,
        number: u32,
        destination: Node,
        content: M,
    ) -> Result<Self, AllocError>
        ensures { IfOk result (λ flight. flight ≡ flight_sent source number (destination, content)) }
    {
        let content = Box::new(alloc, content)?;
        Ok(Flight {
            source,
            destination,
            copies: 1,
            number,
            content: Some(content),
        })
    }

    /// Its source.
    pub fn source(&self) -> Node
        ensures { result ≡ self.now.packet.source }
    {
        self.source
    }

    /// Its destination.
    pub fn destination(&self) -> Node
        ensures { result ≡ self.now.packet.destination }
    {
        self.destination
    }

    /// Its content, which is there while a copy is in flight.
    pub fn content(&self) -> &M
        requires { IsSome self.now.packet.content }
        ensures { self.now.packet.content ≡ Some result.now }
    {
        match &self.content {
            Some(content) => content,
            None => unreachable!(),
        }
    }

    /// How many copies of it are in flight.
    pub fn copies(&self) -> u32
        ensures { result ≡ self.now.packet.copies }
    {
        self.copies
    }

    /// Its number in the run of whole events.
    pub fn number(&self) -> u32
        ensures { result ≡ self.now.number }
    {
        self.number
    }

    /// One more copy of it is in flight.
    pub fn add_copy(&mut self)
        requires { self.old.packet.copies + 1 < 2 ^ 32 }
        ensures { self.new ≡ with_packet held_more self.old }
    {
        self.copies += 1;
    }

    /// One copy less of it is in flight.
    pub fn take_copy(&mut self)
        requires { 0 < self.old.packet.copies }
        ensures { self.new ≡ with_packet held_less self.old }
    {
        self.copies -= 1;
        if self.copies == 0 {
            self.content = None;
        }
    }
}
