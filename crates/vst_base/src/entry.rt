ghost use Rattle.std.specs.Prelude.{◌≡◌};

use crate::What;
use std::marker::Model;

/// The greatest term. A node in it never becomes a candidate again.
pub const MAX_TERM: u64 = 9_223_372_036_854_775_807;

/// An entry of a log: the term in which a leader added it, from 1 to `MAX_TERM`, and what it holds, where the
/// node that took a request is one below `MAX_NODES`. Contracts see the record of these.
#[derive(Debug, Drop, PartialEq, Eq)]
pub struct Entry<C> {
    term: u64,
    what: What<C>,
}

impl<C> Model for Entry<C> {
    ghost use Rattle.vst_base.specs.Entries.{EntryView, HasOrigin, IsElectionTerm};

    ghost Value = { EntryView C };

    ghost view = { λ e. record { term = e.term; what = e.what } };

    ghost invariant = { λ e. IsElectionTerm e.term × HasOrigin e.what };

    ghost inverse = { λ v. record { term = v.term; what = v.what } };
}

impl<C> Entry<C> {
    ghost use Rattle.vst_base.specs.Entries.{HasOrigin, IsElectionTerm};

    /// An entry of a term, which holds this.
    pub fn new(term: u64, what: What<C>) -> Self
        requires term { IsElectionTerm term }
        requires origin { HasOrigin what }
        ensures { result ≡ record { term = term; what = what } }
    {
        Entry { term, what }
    }

    /// The term in which a leader added it.
    pub fn term(&self) -> u64
        ensures value { result ≡ self.now.term }
        ensures in_range { IsElectionTerm result }
    {
        self.term
    }

    /// What it holds.
    pub fn what(&self) -> &What<C>
        ensures value { result.now ≡ self.now.what }
        ensures in_range { HasOrigin result.now }
    {
        &self.what
    }
}
