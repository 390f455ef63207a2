ghost use Rattle.std.specs.Prelude.{◌≡◌, [], ◌∷◌, ◌++◌, OnOk, OnErr};

use std::alloc::{AllocError, Global};
use std::marker::Model;
use vst_base::Item;

/// What clients saw: inputs and outputs with their nodes, in order. Contracts see the list.
#[derive(Drop)]
pub struct Trace<I, O> {
    items: Vec<Item<I, O>>,
}

impl<I, O> Model for Trace<I, O> {
    ghost use Rattle.std.specs.Prelude.{List};
    ghost use Rattle.vst_base.specs.declared.step.Item.{Item};

    ghost Value = { List (Item I O) };

    ghost view = { λ t. t.items.items };
}

impl<I: Drop, O: Drop> Trace<I, O> {
    /// Nothing was seen yet. It takes no memory.
    pub fn new(alloc: Global) -> Self
        ensures { result ≡ [] }
    {
        Trace {
            items: Vec::new(alloc),
        }
    }

    /// The items, in order.
    pub fn items(&self) -> &[Item<I, O>]
        ensures { result.now ≡ self.now }
    {
        &self.items
    }

    /// Clears it of every item. It takes no memory.
    pub fn clear(&mut self)
        ensures { self.new ≡ [] }
    {
        self.items.clear();
    }

    /// Adds an item at the end.
    pub fn push(&mut self, item: Item<I, O>) -> Result<(), AllocError>
        ensures added { OnOk result (self.new ≡ self.old ++ item ∷ []) }
        ensures err { OnErr result (self.new ≡ self.old) }
    {
        self.items.push(item)?;
        Ok(())
    }
}
