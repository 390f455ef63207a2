ghost use Rattle.std.specs.Prelude.{◌≡◌, ◌≢◌, ◌+◌, ◌<◌, ◌^◌, [], length, MatchBool, MatchOption};
ghost use Rattle.act_world.specs.Turns.{ActsNext, PutsNext, SendsNext, going, if_uncounted, saving, telling};

use handler_trait::Effects;
use std::collections::VecDeque;
use std::marker::Model;
use vst_base::{Node, Step};

/// A turn that has not counted: its event, the acts that are left on the areas, and what it sends and puts out once it counts.
#[derive(Drop)]
pub struct SavingTurn<I, A, O, M> {
    event: Step<I>,
    acts: VecDeque<A>,
    effects: Effects<O, M>,
}

impl<I, A, O, M> Model for SavingTurn<I, A, O, M> {
    ghost use Rattle.act_world.specs.Views.{SavingView};

    ghost Value = { SavingView I A O M };

    ghost view = { λ t. record {
      event = t.event;
      acts = t.acts.items;
      sends = t.effects.sends;
      outputs = t.effects.outputs;
    } };
}

impl<I: Drop, A: Drop, O: Drop, M: Drop> SavingTurn<I, A, O, M> {
    /// A turn that begins with this event, has these acts to do, and comes to this.
    pub fn new(event: Step<I>, acts: Vec<A>, effects: Effects<O, M>) -> Self
        ensures { result ≡ saving event acts.items effects.sends effects.outputs }
    {
        SavingTurn {
            event,
            acts: VecDeque::from(acts),
            effects,
        }
    }

    /// Takes its next act, if one is left.
    pub fn next_act(&mut self) -> Option<A>
        ensures { MatchOption result (self.old.acts ≡ []) (ActsNext self.old self.new) }
    {
        self.acts.pop_front()
    }

    /// Whether it has no act left.
    pub fn is_saved(&self) -> bool
        ensures { MatchBool result (self.now.acts ≡ []) (self.now.acts ≢ []) }
    {
        self.acts.is_empty()
    }

    /// Gives up the turn for its event, and for what it comes to.
    pub fn into_parts(self) -> (Step<I>, Effects<O, M>)
        ensures event { result.0 ≡ self.event }
        ensures sends { result.1.sends ≡ self.sends }
        ensures outputs { result.1.outputs ≡ self.outputs }
    {
        (self.event, self.effects)
    }
}

/// A turn that counts: what is left to send and to put out, its place among the turns that count, and the number of its next send.
#[derive(Drop)]
pub struct TellingTurn<O, M> {
    sends: VecDeque<(Node, M)>,
    outputs: VecDeque<O>,
    place: usize,
    number: u32,
}

impl<O, M> Model for TellingTurn<O, M> {
    ghost use Rattle.act_world.specs.Views.{TellingView};

    ghost Value = { TellingView O M };

    ghost view = { λ t. record {
      sends = t.sends.items;
      outputs = t.outputs.items;
      place = t.place;
      number = t.number;
    } };
}

impl<O: Drop, M: Drop> TellingTurn<O, M> {
    /// A turn that counts at this place, and has this to send and to put out. Its first send has this number.
    pub fn new(effects: Effects<O, M>, place: usize, number: u32) -> Self
        ensures { result ≡ telling effects.sends effects.outputs place number }
    {
        let (outputs, sends) = effects.into_parts();
        TellingTurn {
            sends: VecDeque::from(sends),
            outputs: VecDeque::from(outputs),
            place,
            number,
        }
    }

    /// Its place among the turns that count.
    pub fn place(&self) -> usize
        ensures { result ≡ self.now.place }
    {
        self.place
    }

    /// The number of its next send.
    pub fn number(&self) -> u32
        ensures { result ≡ self.now.number }
    {
        self.number
    }

    /// Takes its next packet to send, if one is left.
    pub fn next_send(&mut self) -> Option<(Node, M)>
        requires { self.old.number + length self.old.sends < 2 ^ 32 }
        ensures { MatchOption result ((self.old.sends ≡ []) × (self.new ≡ self.old)) (SendsNext self.old self.new) }
    {
        match self.sends.pop_front() {
            Some(send) => {
                self.number += 1;
                Some(send)
            }
            None => None,
        }
    }

    /// Takes its next output, if one is left.
    pub fn next_output(&mut self) -> Option<O>
        ensures { MatchOption result ((self.old.outputs ≡ []) × (self.new ≡ self.old)) (PutsNext self.old self.new) }
    {
        self.outputs.pop_front()
    }
}

/// A turn of a node: one that has not counted, or one that counts.
#[derive(Drop)]
pub enum Turn<I, A, O, M> {
    Saving(SavingTurn<I, A, O, M>),
    Telling(TellingTurn<O, M>),
}

impl<I: Drop, A: Drop, O: Drop, M: Drop> Turn<I, A, O, M> {
    /// Gives up the turn for itself, if it has not counted.
    pub fn uncounted(self) -> Option<SavingTurn<I, A, O, M>>
        ensures { result ≡ if_uncounted self }
    {
        match self {
            Turn::Saving(turn) => Some(turn),
            Turn::Telling(_) => None,
        }
    }

    /// A turn that counts goes on while it has something to send or to put out.
    pub fn going(turn: TellingTurn<O, M>) -> Option<Self>
        ensures { result ≡ going turn }
    {
        if turn.sends.is_empty() && turn.outputs.is_empty() {
            None
        } else {
            Some(Turn::Telling(turn))
        }
    }
}
