ghost use Rattle.std.specs.Prelude.{◌≡◌, ◌+◌, ◌*◌, ◌<◌, ◌≤◌, true, false, ◌&&◌, ◌==◌, [], length, IfOk, OnErr, OnOk};
ghost use Rattle.node_acts.specs.StateActs.{state_acts, store_after};
ghost use Rattle.node_acts.specs.StateLaws.{HasBytes};
ghost use Rattle.node_acts.specs.Stores.{common, is_held, same_vote};
ghost use Rattle.node_body.specs.Bodies.{VoteAmong, kept_as};
ghost use Rattle.node_body.specs.declared.bases.TheConstants.{MAX_RECORD_LEN};
ghost use Rattle.node_device.specs.Telling.{Did};
ghost use Rattle.node_state.specs.Calls.{GrowsFirst, IsNodeOf, StateCounts};
ghost use Rattle.node_state.specs.Changes.{change_to, changed_by, no_change};
ghost use Rattle.node_state.specs.Crashes.{StoppedWith};
ghost use Rattle.node_state.specs.Ends.{NewFits, end_of, new_acts, new_end};
ghost use Rattle.raft_types.specs.Messages.{IsIndex, IsTerm};
ghost use Rattle.store_acts.specs.StoreActs.{acts_of};

use crate::common::{common, terms_of};
use crate::saving::{Saving, saved_anew};
use crate::{SavePlan, StateFault, StoreChange, make_acts};
use node_body::{Commands, Who};
use node_device::Device;
use raft_types::Kept;
use std::alloc::{AllocError, Global};
use std::marker::Model;
use vst_base::{Entry, Node};

/// Where the journal of the named slot goes on: the selector, the place of the last gate, and how many records more may follow. Where
/// none may, there may be no gate, and the place says nothing.
#[derive(Clone, Copy, Debug, PartialEq, Eq)]
pub struct JournalEnd {
    pub selector: u8,
    pub gate: u64,
    pub left: u32,
}

/// What a node knows of its areas between two saves, so that a save writes only what is new: whose state it is, where the journal goes
/// on, and of the state that is held the term, the vote and the terms of the entries.
#[derive(Drop)]
pub struct Store {
    who: Who,
    end: JournalEnd,
    term: u64,
    voted: Option<Node>,
    terms: Vec<u64>,
}

impl Model for Store {
    ghost use Rattle.std.specs.Prelude.{◌+◌, ◌*◌, ◌<◌};
    ghost use Rattle.node_acts.specs.Stores.{StoreView};
    ghost use Rattle.node_body.specs.declared.bases.TheConstants.{MAX_RECORD_LEN};

    ghost Value = { StoreView };

    ghost view = { λ s. record {
      who = s.who;
      selector = s.end.selector;
      gate = s.end.gate;
      left = s.end.left;
      term = s.term;
      voted = s.voted;
      terms = s.terms.items;
    } };

    ghost invariant = { λ s. s.end.gate + s.end.left * MAX_RECORD_LEN < 18446744073709551616 };
}

// Whether two votes are the same.
fn same_vote(a: Option<Node>, b: Option<Node>) -> bool
    ensures { result ≡ same_vote a b }
{
    match (a, b) {
        (None, None) => true,
        (Some(a), Some(b)) => a.index() == b.index(),
        _ => false,
    }
}

impl Store {
    // What a node knows after an opening or a base.
    pub(crate) fn new(
        who: Who,
        end: JournalEnd,
        term: u64,
        voted: Option<Node>,
        terms: Vec<u64>,
    ) -> Self
        requires room { end.gate + end.left * MAX_RECORD_LEN < 18446744073709551616 }
        ensures { result ≡ record {
          who = who;
          selector = end.selector;
          gate = end.gate;
          left = end.left;
          term = term;
          voted = voted;
          terms = terms.items;
        } }
    {
        Store {
            who,
            end,
            term,
            voted,
            terms,
        }
    }

    /// Whose state it is.
    pub fn who(&self) -> Who
        ensures { result ≡ self.now.who }
    {
        self.who
    }

    /// The selector that stands in area 2.
    pub fn selector(&self) -> u8
        ensures { result ≡ self.now.selector }
    {
        self.end.selector
    }

    // Whether a state of this term and vote, whose log has so many entries and keeps so many, is held.
    fn has(&self, term: u64, voted: &Option<Node>, keep: usize, len: usize) -> bool
        ensures { result ≡ ((term == self.now.term && same_vote voted.now self.now.voted)
            && (keep == length self.now.terms && keep == len)) }
    {
        term == self.term
            && same_vote(*voted, self.voted)
            && keep == self.terms.len()
            && keep == len
    }

    /// Whether this state is the one that is held.
    pub fn is_held<C>(&self, kept: &Kept<C>) -> bool
        ensures { result ≡ is_held self.now kept.now }
    {
        let log = kept.log();
        let keep = common(&self.terms, log, 0);
        self.has(kept.term(), &kept.voted(), keep, log.len())
    }

    // What makes a state durable that is new, and whose log keeps so many of the entries that are held.
    fn saved_anew<C: Commands>(
        &self,
        alloc: Global,
        term: u64,
        voted: &Option<Node>,
        keep: u32,
        log: &[Entry<C>],
    ) -> Result<Saving, AllocError>
        requires who { IsNodeOf C.stack self.now.who }
        requires term { IsTerm term }
        requires voted { VoteAmong self.now.who.nodes voted.now }
        requires log { IsIndex (length log.now) }
        requires keep { keep ≤ length log.now }
        ensures acts { IfOk result (λ saving. acts_of saving.acts.items
            ≡ new_acts C.stack C.format self.now.who (end_of self.now) keep (kept_as term voted.now log.now)) }
        ensures fits { OnOk result (NewFits C.stack C.format self.now.who (end_of self.now) keep (kept_as term voted.now log.now)) }
        ensures end { IfOk result (λ saving. saving.end
            ≡ new_end C.stack C.format self.now.who (end_of self.now) keep (kept_as term voted.now log.now)) }
        ensures room { IfOk result (λ saving. saving.end.gate + saving.end.left * MAX_RECORD_LEN < 18446744073709551616) }
    {
        saved_anew(alloc, &self.who, &self.end, term, *voted, keep, log)
    }

    // What is known where a state is saved that is held.
    fn unchanged(&self, alloc: Global) -> StoreChange
        ensures { result ≡ no_change self.now }
    {
        let keep = self.terms.len();
        StoreChange::new(self.end, self.term, self.voted, keep, Vec::new(alloc))
    }

    // What saves a state, of whose log the first `same` entries have the terms of those that are held.
    pub(crate) fn plan<C: Commands>(
        &self,
        alloc: Global,
        term: u64,
        voted: Option<Node>,
        log: &[Entry<C>],
        same: usize,
    ) -> Result<SavePlan, AllocError>
        requires who { IsNodeOf C.stack self.now.who }
        requires term { IsTerm term }
        requires voted { VoteAmong self.now.who.nodes voted }
        requires log { IsIndex (length log.now) }
        requires same { same ≤ common self.now.terms log.now }
        ensures acts { IfOk result (λ plan. acts_of plan.acts.items
            ≡ state_acts C.stack C.format self.now (kept_as term voted log.now)) }
        ensures fits { OnOk result (is_held self.now (kept_as term voted log.now) ≡ false
            → HasBytes C.stack C.format self.now (kept_as term voted log.now)) }
        ensures change { IfOk result (λ plan. plan.change
            ≡ change_to C.stack C.format self.now (kept_as term voted log.now)) }
    {
        let keep = common(&self.terms, log, same);
        if self.has(term, &voted, keep, log.len()) {
            return Ok(SavePlan {
                acts: Vec::new(alloc),
                change: self.unchanged(alloc),
            });
        }
        let added = terms_of(alloc, &log[keep..])?;
        let saving = self.saved_anew::<C>(alloc, term, &voted, keep as u32, log)?;
        Ok(SavePlan {
            acts: saving.acts,
            change: StoreChange::new(saving.end, term, voted, keep, added),
        })
    }

    // Knows a state once the acts that save it were made.
    pub(crate) fn advance(&mut self, change: StoreChange) -> Result<(), AllocError>
        ensures knows { OnOk result (self.new ≡ changed_by self.old change) }
        ensures unchanged { OnErr result (self.new ≡ self.old) }
    {
        let (end, term, voted, keep, mut added) = change.into_parts();
        self.terms.reserve(added.len())?;
        self.terms.truncate(keep);
        self.terms.append(&mut added)?;
        self.end = end;
        self.term = term;
        self.voted = voted;
        Ok(())
    }

    // Makes the acts that save a state, of whose log the first `same` entries have the terms of those that are held. It first makes all
    // its growths.
    pub(crate) fn write<D: Device, C: Commands>(
        &mut self,
        alloc: Global,
        device: &mut D,
        term: u64,
        voted: Option<Node>,
        log: &[Entry<C>],
        same: usize,
    ) -> Result<(), StateFault>
        requires begun { D.begun device.old ≡ true }
        requires who { IsNodeOf C.stack self.old.who }
        requires term { IsTerm term }
        requires voted { VoteAmong self.old.who.nodes voted }
        requires log { IsIndex (length log.now) }
        requires same { same ≤ common self.old.terms log.now }
        ensures did { OnOk result (Did (D.told device.old) (D.told device.new)
            (state_acts C.stack C.format self.old (kept_as term voted log.now))) }
        ensures fits { OnOk result (is_held self.old (kept_as term voted log.now) ≡ false
            → HasBytes C.stack C.format self.old (kept_as term voted log.now)) }
        ensures knows { OnOk result (self.new ≡ store_after C.stack C.format self.old (kept_as term voted log.now)) }
        ensures stopped { OnErr result (StoppedWith
            (is_held self.old (kept_as term voted log.now) ≡ false → HasBytes C.stack C.format self.old (kept_as term voted log.now))
            (D.told device.old) (D.told device.new) [] (state_acts C.stack C.format self.old (kept_as term voted log.now))) }
        ensures unchanged { OnErr result (self.new ≡ self.old) }
        ensures causes { StateCounts (D.faults device.old) (D.faults device.new) result }
        ensures wants { GrowsFirst (D.told device.new ≡ D.told device.old) (D.wants device.old) (D.wants device.new) result }
        ensures begun { D.begun device.new ≡ true }
    {
        let SavePlan { acts, change } = self.plan::<C>(alloc, term, voted, log, same)?;
        let (end, term, voted, keep, mut added) = change.into_parts();
        self.terms.reserve(added.len())?;
        make_acts(device, &acts)?;
        self.terms.truncate(keep);
        self.terms.append(&mut added)?;
        self.end = end;
        self.term = term;
        self.voted = voted;
        Ok(())
    }
}
