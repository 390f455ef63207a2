ghost use Rattle.std.specs.Prelude.{◌≡◌, ◌+◌, ◌-◌, ◌<◌, ◌≤◌, [], ◌∷◌, ◌++◌, IfOk, IsOk, OnOk, OnErr, IfSome, IfNone};
ghost use Rattle.std.specs.Prelude.{vec_capacity, vec_len};

use std::alloc::{AllocError, Global};
use std::marker::Model;
use std::mem;
use vst_base::Node;

/// The outputs and sends that an event makes, in order. Contracts see both lists, and how many of
/// each can still be added without taking memory.
#[derive(Drop)]
pub struct Effects<O, M> {
    outputs: Vec<O>,
    sends: Vec<(Node, M)>,
}

impl<O, M> Model for Effects<O, M> {
    ghost use Rattle.std.specs.Prelude.{◌-◌, vec_len, vec_capacity};
    ghost use Rattle.handler_trait.specs.Handling.{Gathered};

    ghost Value = { Gathered O M };

    ghost view = { λ e. record {
      outputs = e.outputs.items;
      sends = e.sends.items;
      output_places = vec_capacity e.outputs - vec_len e.outputs;
      send_places = vec_capacity e.sends - vec_len e.sends;
    } };
}

impl<O: Drop, M: Drop> Effects<O, M> {
    ghost use Rattle.handler_trait.specs.Handling.{Gathered};

    /// No outputs and no sends. It takes no memory.
    pub fn new(alloc: Global) -> Self
        ensures outputs { result.outputs ≡ [] }
        ensures sends { result.sends ≡ [] }
    {
        Effects {
            outputs: Vec::new(alloc),
            sends: Vec::new(alloc),
        }
    }

    /// No outputs and no sends, with room for so many of each.
    pub fn with_capacity(alloc: Global, outputs: usize, sends: usize) -> Result<Self, AllocError>
        ensures outputs { IfOk result (λ effects. effects.outputs ≡ []) }
        ensures sends { IfOk result (λ effects. effects.sends ≡ []) }
        ensures output_places { IfOk result (λ effects. outputs ≤ effects.output_places) }
        ensures send_places { IfOk result (λ effects. sends ≤ effects.send_places) }
    {
        let mut effects = Effects::new(alloc);
        effects.reserve(outputs, sends)?;
        Ok(effects)
    }

    /// These outputs and sends. What room the vectors have is the room that is left.
    pub fn from_parts(outputs: Vec<O>, sends: Vec<(Node, M)>) -> Self
        ensures outputs { result.outputs ≡ outputs.items }
        ensures sends { result.sends ≡ sends.items }
        ensures output_places { result.output_places ≡ vec_capacity outputs - vec_len outputs }
        ensures send_places { result.send_places ≡ vec_capacity sends - vec_len sends }
    {
        Effects { outputs, sends }
    }

    /// Gives up the outputs and the sends, in order, with the room that is left.
    pub fn into_parts(self) -> (Vec<O>, Vec<(Node, M)>)
        ensures outputs { result.0.items ≡ self.outputs }
        ensures sends { result.1.items ≡ self.sends }
        ensures output_places { vec_capacity result.0 - vec_len result.0 ≡ self.output_places }
        ensures send_places { vec_capacity result.1 - vec_len result.1 ≡ self.send_places }
    {
        (self.outputs, self.sends)
    }

    /// Lends the outputs and their room to effects for handlers within, which add to them. These effects have no sends, and room for
    /// `sends` of them. Until the outputs are taken back there are none here. At an `Err` nothing changed.
    pub fn lend_outputs<N: Drop>(
        &mut self,
        alloc: Global,
        sends: usize,
    ) -> Result<Effects<O, N>, AllocError>
        ensures outputs { IfOk result (λ within. within.outputs ≡ self.old.outputs) }
        ensures output_places { IfOk result (λ within. within.output_places ≡ self.old.output_places) }
        ensures no_sends { IfOk result (λ within. within.sends ≡ []) }
        ensures room { IfOk result (λ within. sends ≤ within.send_places) }
        ensures lent { OnOk result (self.new.outputs ≡ []) }
        ensures err { OnErr result (self.new ≡ self.old) }
        ensures sends { self.new.sends ≡ self.old.sends }
        ensures send_places { self.new.send_places ≡ self.old.send_places }
    {
        let sends = Vec::with_capacity(alloc, sends)?;
        let outputs = mem::replace(&mut self.outputs, Vec::new(alloc));
        Ok(Effects { outputs, sends })
    }

    /// Takes the outputs and what is left of their room back from effects that they were lent to, and gives the sends of these, in order.
    pub fn take_back<N: Drop>(&mut self, within: Effects<O, N>) -> Vec<(Node, N)>
        ensures outputs { self.new.outputs ≡ within.outputs }
        ensures output_places { self.new.output_places ≡ within.output_places }
        ensures given { result.items ≡ within.sends }
        ensures sends { self.new.sends ≡ self.old.sends }
        ensures send_places { self.new.send_places ≡ self.old.send_places }
    {
        let (outputs, sends) = within.into_parts();
        self.outputs = outputs;
        sends
    }

    /// Makes room for so many more outputs and sends. What is there stays, whatever the result.
    pub fn reserve(&mut self, outputs: usize, sends: usize) -> Result<(), AllocError>
        ensures output_places { OnOk result (outputs ≤ self.new.output_places) }
        ensures send_places { OnOk result (sends ≤ self.new.send_places) }
        ensures outputs { self.new.outputs ≡ self.old.outputs }
        ensures sends { self.new.sends ≡ self.old.sends }
    {
        self.outputs.reserve(outputs)?;
        self.sends.reserve(sends)
    }

    /// Adds an output. It takes no memory where a place is left.
    pub fn output(&mut self, output: O) -> Result<(), AllocError>
        ensures added { OnOk result (self.new.outputs ≡ self.old.outputs ++ output ∷ []) }
        ensures err { OnErr result (self.new.outputs ≡ self.old.outputs) }
        ensures succeeds { 0 < self.old.output_places → IsOk result }
        ensures output_places { self.old.output_places ≤ self.new.output_places + 1 }
        ensures sends { self.new.sends ≡ self.old.sends }
        ensures send_places { self.new.send_places ≡ self.old.send_places }
    {
        self.outputs.push(output)?;
        Ok(())
    }

    /// Adds a packet to send, with its destination, where a place is left for it. It takes no memory.
    pub fn send(&mut self, to: Node, message: M)
        requires { 0 < self.old.send_places }
        ensures added { self.new.sends ≡ self.old.sends ++ (to, message) ∷ [] }
        ensures send_places { self.old.send_places ≤ self.new.send_places + 1 }
        ensures outputs { self.new.outputs ≡ self.old.outputs }
        ensures output_places { self.new.output_places ≡ self.old.output_places }
    {
        self.sends.push((to, message)).unwrap();
    }

    /// The outputs, in order.
    pub fn outputs(&self) -> &[O]
        ensures { result.now ≡ self.now.outputs }
    {
        &self.outputs
    }

    /// The packets to send with their destinations, in order.
    pub fn sends(&self) -> &[(Node, M)]
        ensures { result.now ≡ self.now.sends }
    {
        &self.sends
    }

    /// Drops all outputs and sends. The room stays.
    pub fn clear(&mut self)
        ensures outputs { self.new.outputs ≡ [] }
        ensures sends { self.new.sends ≡ [] }
        ensures output_places { self.old.output_places ≤ self.new.output_places }
        ensures send_places { self.old.send_places ≤ self.new.send_places }
    {
        self.outputs.clear();
        self.sends.clear();
    }
}
