ghost use Rattle.std.specs.Prelude.{◌≡◌, length};
ghost use Rattle.raft_types.specs.Messages.{IsIndex};

use std::marker::Model;
use vst_base::Entry;

/// Entries of a log, at most `MAX_INDEX`, in order. Contracts see the list.
#[derive(Debug, Drop)]
pub struct Entries<C> {
    items: Vec<Entry<C>>,
}

impl<C> Model for Entries<C> {
    ghost use Rattle.std.specs.Prelude.{List, length};
    ghost use Rattle.vst_base.specs.declared.entry.Entry.{Entry};
    ghost use Rattle.raft_types.specs.Messages.{IsIndex};

    ghost Value = { List (Entry C) };

    ghost view = { λ e. e.items.items };

    ghost invariant = { λ e. IsIndex (length e.items.items) };
}

impl<C> Entries<C> {
    /// The entries of a vector.
    pub fn new(items: Vec<Entry<C>>) -> Self
        requires { IsIndex (length items.items) }
        ensures { result ≡ items.items }
    {
        Entries { items }
    }

    /// The entries as a slice.
    pub fn as_slice(&self) -> &[Entry<C>]
        ensures entries { result.now ≡ self.now }
        ensures in_range { IsIndex (length result.now) }
    {
        &self.items
    }

    /// Gives them up for the vector that holds them.
    pub fn into_vec(self) -> Vec<Entry<C>>
        ensures entries { result.items ≡ self }
        ensures in_range { IsIndex (length result.items) }
    {
        self.items
    }
}
