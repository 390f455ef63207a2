ghost use Rattle.std.specs.Prelude.{◌≡◌, ◌≤◌, ◌+◌, length};
ghost use Rattle.vst_base.specs.Entries.{IsElectionTerm};
ghost use Rattle.raft_types.specs.Messages.{IsIndex, IsTerm};

use crate::{Entries, MAX_BATCH};
use std::marker::Model;
use vst_base::Entry;

/// A leader of a term, from 1 to `MAX_TERM`, sends the entries after an index of its log, and says how far it
/// has committed. They are at most `MAX_BATCH`, and the last stands at `MAX_INDEX` at most. Contracts see the
/// record of its parts.
#[derive(Debug, Drop)]
pub struct Append<C> {
    term: u64,
    prev_index: u32,
    prev_term: u64,
    commit: u32,
    entries: Entries<C>,
}

impl<C> Model for Append<C> {
    ghost use Rattle.std.specs.Prelude.{◌≤◌, ◌+◌, length};
    ghost use Rattle.vst_base.specs.Entries.{IsElectionTerm};
    ghost use Rattle.raft_types.specs.Messages.{AppendView};
    ghost use Rattle.raft_types.specs.Messages.{IsIndex, IsTerm};
    ghost use Rattle.raft_types.specs.declared.limits.TheConstants.{MAX_BATCH};

    ghost Value = { AppendView C };

    ghost view = { λ a.
        record { term = a.term; prev_index = a.prev_index; prev_term = a.prev_term; commit = a.commit; entries = a.entries } };

    ghost invariant = { λ a.
        IsElectionTerm a.term × IsTerm a.prev_term × IsIndex a.commit
        × (length a.entries ≤ MAX_BATCH) × IsIndex (a.prev_index + length a.entries) };

    ghost inverse = { λ v.
        record { term = v.term; prev_index = v.prev_index; prev_term = v.prev_term; commit = v.commit; entries = v.entries } };
}

impl<C> Append<C> {
    /// The entries of a leader of this term that stand after an index of its log, with the term there,
    /// and how far it has committed.
    pub fn new(term: u64, prev_index: u32, prev_term: u64, commit: u32, entries: Entries<C>) -> Self
        requires term { IsElectionTerm term }
        requires prev_term { IsTerm prev_term }
        requires commit { IsIndex commit }
        requires count { length entries ≤ MAX_BATCH }
        requires last_index { IsIndex (prev_index + length entries) }
        ensures { result
            ≡ record { term = term; prev_index = prev_index; prev_term = prev_term; commit = commit; entries = entries } }
    {
        Append {
            term,
            prev_index,
            prev_term,
            commit,
            entries,
        }
    }

    /// The leader's term.
    pub fn term(&self) -> u64
        ensures value { result ≡ self.now.term }
        ensures in_range { IsElectionTerm result }
    {
        self.term
    }

    /// The index after which the entries stand, 0 where they begin the log.
    pub fn prev_index(&self) -> u32
        ensures value { result ≡ self.now.prev_index }
        ensures in_range { IsIndex (result + length self.now.entries) }
    {
        self.prev_index
    }

    /// The term of the leader's entry at that index, at most `MAX_TERM`, and 0 at index 0.
    pub fn prev_term(&self) -> u64
        ensures value { result ≡ self.now.prev_term }
        ensures in_range { IsTerm result }
    {
        self.prev_term
    }

    /// The index up to which the leader has committed, at most `MAX_INDEX`.
    pub fn commit(&self) -> u32
        ensures value { result ≡ self.now.commit }
        ensures in_range { IsIndex result }
    {
        self.commit
    }

    /// The entries after that index, in order.
    pub fn entries(&self) -> &[Entry<C>]
        ensures value { result.now ≡ self.now.entries }
        ensures in_range { length result.now ≤ MAX_BATCH }
    {
        self.entries.as_slice()
    }
}
