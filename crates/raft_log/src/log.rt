ghost use Rattle.std.specs.Prelude.{◌≡◌, ◌+◌, ◌<◌, ◌≤◌, [], ◌∷◌, ◌++◌, length, take, nat_le, Some, None, IfSome, OnErr, OnOk, if◌then◌else◌};
ghost use Rattle.vst_base.specs.Elections.{is_up_to_date};
ghost use Rattle.vst_base.specs.Logs.{last_term, matches, term_at};
ghost use Rattle.vst_base.specs.declared.entry.TheConstants.{MAX_TERM};

use crate::copy_entries;
use raft_types::MAX_INDEX;
use std::alloc::{AllocError, Global};
use std::marker::Model;
use vst_base::{Entry, Machine};

/// The log of a node: at most `MAX_INDEX` entries, whose indexes count from 1. Contracts see the list.
#[derive(Drop)]
pub struct Log<C> {
    entries: Vec<Entry<C>>,
}

impl<C> Model for Log<C> {
    ghost use Rattle.std.specs.Prelude.{◌≤◌, List, length};
    ghost use Rattle.vst_base.specs.declared.entry.Entry.{Entry};
    ghost use Rattle.raft_types.specs.declared.limits.TheConstants.{MAX_INDEX};

    ghost Value = { List (Entry C) };

    ghost view = { λ l. l.entries.items };

    ghost invariant = { λ l. length l.entries.items ≤ MAX_INDEX };
}

impl<C: Drop> Log<C> {
    // Keeps so many of the first entries, and puts copies of these after them.
    pub(crate) fn replace_from<M: Machine<Cmd = C>>(
        &mut self,
        alloc: Global,
        machine: &M,
        kept: usize,
        new: &[Entry<C>],
    ) -> Result<(), AllocError>
        requires kept { kept ≤ length self.old }
        requires room { kept + length new.now ≤ MAX_INDEX }
        ensures ok { OnOk result (self.new ≡ take kept self.old ++ new.now) }
        ensures err { OnErr result (self.new ≡ self.old) }
    {
        let mut copies = copy_entries(alloc, machine, new)?;
        let missing = (kept + new.len()).saturating_sub(self.entries.len());
        self.entries.reserve(missing)?;
        self.entries.truncate(kept);
        self.entries.append(&mut copies)
    }

    /// The log of these entries.
    pub fn new(entries: Vec<Entry<C>>) -> Self
        requires { length entries.items ≤ MAX_INDEX }
        ensures { result ≡ entries.items }
    {
        Log { entries }
    }

    /// Adds an entry after its last, as a leader does with one of its own. An `Err` changes nothing.
    pub fn push(&mut self, entry: Entry<C>) -> Result<(), AllocError>
        requires { length self.old < MAX_INDEX }
        ensures ok { OnOk result (self.new ≡ self.old ++ entry ∷ []) }
        ensures err { OnErr result (self.new ≡ self.old) }
    {
        self.entries.push(entry)?;
        Ok(())
    }

    /// Its entries, from index 1 on.
    pub fn entries(&self) -> &[Entry<C>]
        ensures entries { result.now ≡ self.now }
        ensures in_range { length result.now ≤ MAX_INDEX }
    {
        &self.entries
    }

    /// Gives up the log for its entries.
    pub fn into_entries(self) -> Vec<Entry<C>>
        ensures entries { result.items ≡ self }
        ensures in_range { length result.items ≤ MAX_INDEX }
    {
        self.entries
    }

    // How many entries it has.
    fn count(&self) -> u32
        ensures count { result ≡ length self.now }
        ensures in_range { result ≤ MAX_INDEX }
    {
        self.entries.len() as u32
    }

    /// The term of the entry at an index: 0 at index 0, and none past the end.
    pub fn term_at(&self, index: u32) -> Option<u64>
        ensures term { result ≡ (if nat_le index (length self.now) then Some (term_at self.now index) else None) }
        ensures in_range { IfSome result (λ term. term ≤ MAX_TERM) }
    {
        if index == 0 {
            return Some(0);
        }
        let entry = self.entries.get(index as usize - 1)?;
        Some(entry.term())
    }

    /// The index and the term of the last entry, both 0 where there is none.
    pub fn last(&self) -> (u32, u64)
        ensures index { result.0 ≡ length self.now }
        ensures term { result.1 ≡ last_term self.now }
        ensures index_in_range { result.0 ≤ MAX_INDEX }
        ensures term_in_range { result.1 ≤ MAX_TERM }
    {
        let index = self.count();
        (index, self.term_at(index).unwrap_or(0))
    }

    /// Whether it has an entry of this term at an index: the test of an Append (section 5.3 of the Raft
    /// paper). Index 0 has term 0.
    pub fn matches(&self, prev: u32, term: u64) -> bool
        ensures { result ≡ matches self.now prev term }
    {
        self.term_at(prev) == Some(term)
    }

    /// Whether a candidate's log, by its last index and term, is up to date for the voter of this log
    /// (section 5.4.1 of the Raft paper).
    pub fn up_to_date(&self, last_index: u32, last_term: u64) -> bool
        ensures { result ≡ is_up_to_date self.now last_index last_term }
    {
        let (index, term) = self.last();
        last_term > term || last_term == term && last_index >= index
    }
}
