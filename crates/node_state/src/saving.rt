ghost use Rattle.std.specs.Prelude.{◌≡◌, ◌+◌, ◌-◌, ◌*◌, ◌<◌, ◌≤◌, ◌≢◌, true, false, ℕ, suc, [], ◌∷◌, ◌++◌, length, IfOk, IfSome, OnErr, OnOk};
ghost use Rattle.node_acts.specs.StateActs.{append_acts, gate_of_base, state_acts, store_after};
ghost use Rattle.node_acts.specs.StateLaws.{HasBytes};
ghost use Rattle.node_acts.specs.Stores.{Holds, Knows, common, is_held};
ghost use Rattle.node_body.specs.Bodies.{VoteAmong, body, body_of, kept_as};
ghost use Rattle.node_body.specs.Journals.{change, change_as, spell_change};
ghost use Rattle.node_body.specs.Slots.{base_of};
ghost use Rattle.node_body.specs.declared.bases.TheConstants.{MAX_BASE_LEN, MAX_RECORD_LEN};
ghost use Rattle.node_body.specs.declared.journal.TheConstants.{MAX_RECORDS};
ghost use Rattle.node_device.specs.Telling.{Did, StoppedIn, WhereTold};
ghost use Rattle.node_state.specs.Calls.{GrowsFirst, IsNodeOf, StateCounts};
ghost use Rattle.node_state.specs.Changes.{change_to, changed_by};
ghost use Rattle.node_state.specs.Crashes.{IsHeldBefore, LeavesEither, Saves};
ghost use Rattle.node_state.specs.Ends.{NewFits, new_acts, new_end};
ghost use Rattle.raft_types.specs.Messages.{IsIndex, IsTerm};
ghost use Rattle.slots.specs.Opening.{named};
ghost use Rattle.slots.specs.Saving.{next, save_acts};
ghost use Rattle.store_acts.specs.StoreActs.{acts_of};
ghost use Rattle.vst_base.specs.declared.node.TheConstants.{MAX_NODES};
ghost use Rattle.wire_messages.specs.EntryBytes.{entry};

use crate::store::JournalEnd;
use crate::{SavePlan, StateFault, Store, StoreChange};
use node_body::{Commands, MAX_RECORDS, Who, make_base_of, make_record};
use node_device::Device;
use raft_types::Kept;
use std::alloc::{AllocError, Global};
use store_acts::{StoreAct, record_added, slot_saved};
use vst_base::{Entry, Node};

// What a save does: its acts, and where the journal goes on after them.
#[derive(Drop)]
pub(crate) struct Saving {
    pub(crate) acts: Vec<StoreAct>,
    pub(crate) end: JournalEnd,
}

// What saves a state as a base in the slot that the selector does not name.
pub(crate) fn saved_as_base<C: Commands>(
    alloc: Global,
    who: &Who,
    selector: u8,
    term: u64,
    voted: Option<Node>,
    log: &[Entry<C>],
) -> Result<Saving, AllocError>
    requires who { IsNodeOf C.stack who.now }
    requires term { IsTerm term }
    requires voted { VoteAmong who.now.nodes voted }
    requires log { IsIndex (length log.now) }
    ensures acts { IfOk result (λ saving. acts_of saving.acts.items
        ≡ save_acts selector (base_of C.stack C.format who.now (kept_as term voted log.now))) }
    ensures fits { OnOk result ((body C.stack C.format).Fits (body_of who.now (kept_as term voted log.now))) }
    ensures end { IfOk result (λ saving. saving.end ≡ record {
      selector = next selector;
      gate = gate_of_base C.stack C.format who.now (kept_as term voted log.now);
      left = MAX_RECORDS;
    }) }
    ensures short { IfOk result (λ saving. saving.end.gate ≤ MAX_BASE_LEN) }
{
    let base = make_base_of(alloc, who, term, voted, log)?;
    let end = JournalEnd {
        selector: selector.wrapping_add(1),
        gate: base.len() as u64 - 1,
        left: MAX_RECORDS,
    };
    let acts = slot_saved(alloc, selector, base)?;
    Ok(Saving { acts, end })
}

// What adds the record that makes a state of the one that is held, of whose log it keeps so many entries.
pub(crate) fn saved_as_record<C: Commands>(
    alloc: Global,
    end: &JournalEnd,
    term: u64,
    voted: Option<Node>,
    keep: u32,
    entries: &[Entry<C>],
) -> Result<Saving, AllocError>
    requires term { IsTerm term }
    requires voted { VoteAmong MAX_NODES voted }
    requires index { IsIndex (keep + length entries.now) }
    requires left { 0 < end.now.left }
    requires room { end.now.gate + end.now.left * MAX_RECORD_LEN < 18446744073709551616 }
    ensures acts { IfOk result (λ saving. acts_of saving.acts.items ≡ append_acts (named end.now.selector) end.now.gate
        (spell_change (entry C.format) (change_as term voted keep entries.now) ++ 0 ∷ [])) }
    ensures fits { OnOk result ((nodes : ℕ) → nodes ≤ MAX_NODES → VoteAmong nodes voted
        → (change nodes (entry C.format)).Fits (change_as term voted keep entries.now)) }
    ensures end { IfOk result (λ saving. saving.end ≡ record {
      selector = end.now.selector;
      gate = end.now.gate + length (spell_change (entry C.format) (change_as term voted keep entries.now) ++ 0 ∷ []);
      left = end.now.left - 1;
    }) }
    ensures room { IfOk result (λ saving. saving.end.gate + saving.end.left * MAX_RECORD_LEN < 18446744073709551616) }
{
    let record = make_record(alloc, term, voted, keep, entries)?;
    let new = JournalEnd {
        selector: end.selector,
        gate: end.gate + record.len() as u64,
        left: end.left - 1,
    };
    let acts = record_added(alloc, end.selector, end.gate, record)?;
    Ok(Saving { acts, end: new })
}

// What makes a state durable that is new, as a base or as a record.
pub(crate) fn saved_anew<C: Commands>(
    alloc: Global,
    who: &Who,
    end: &JournalEnd,
    term: u64,
    voted: Option<Node>,
    keep: u32,
    log: &[Entry<C>],
) -> Result<Saving, AllocError>
    requires who { IsNodeOf C.stack who.now }
    requires term { IsTerm term }
    requires voted { VoteAmong who.now.nodes voted }
    requires log { IsIndex (length log.now) }
    requires keep { keep ≤ length log.now }
    requires room { end.now.gate + end.now.left * MAX_RECORD_LEN < 18446744073709551616 }
    ensures acts { IfOk result (λ saving. acts_of saving.acts.items
        ≡ new_acts C.stack C.format who.now end.now keep (kept_as term voted log.now)) }
    ensures fits { OnOk result (NewFits C.stack C.format who.now end.now keep (kept_as term voted log.now)) }
    ensures end { IfOk result (λ saving. saving.end
        ≡ new_end C.stack C.format who.now end.now keep (kept_as term voted log.now)) }
    ensures room { IfOk result (λ saving. saving.end.gate + saving.end.left * MAX_RECORD_LEN < 18446744073709551616) }
{
    if end.left == 0 {
        saved_as_base(alloc, who, end.selector, term, voted, log)
    } else {
        saved_as_record(alloc, end, term, voted, keep, &log[keep as usize..])
    }
}

/// Saves what one event has made of a node's state: the term, the vote, and a log whose first `same` entries are those that are held.
/// Its cost is that of the entries after these, but for a base. Where the state is held it does nothing. Where no record may follow in
/// the named slot, it writes a base into the other slot and names that; else it adds a record, and then opens its gate. An `Err` leaves
/// the store as it was; then the areas are opened again before any save.
pub fn save_change<D: Device, C: Commands>(
    alloc: Global,
    store: &mut Store,
    device: &mut D,
    term: u64,
    voted: Option<Node>,
    log: &[Entry<C>],
    same: usize,
) -> Result<(), StateFault>
    requires begun { D.begun device.old ≡ true }
    requires who { IsNodeOf C.stack store.old.who }
    requires term { IsTerm term }
    requires voted { VoteAmong store.old.who.nodes voted }
    requires log { IsIndex (length log.now) }

    // The areas are as the store knows, and up to the first place where the terms differ the entries are those that are held.
    requires same { same ≤ common store.old.terms log.now }
    requires held { IfSome (D.told device.old) (IsHeldBefore C.stack C.format store.old (kept_as term voted log.now)) }

    // The acts are those of a save of this state, or are cut short.
    ensures did { OnOk result (Did (D.told device.old) (D.told device.new)
        (state_acts C.stack C.format store.old (kept_as term voted log.now))) }
    ensures stopped { OnErr result (StoppedIn (D.told device.old) (D.told device.new)
        (state_acts C.stack C.format store.old (kept_as term voted log.now))) }

    // Then the store remembers this state, and the areas are as it knows and hold the state.
    ensures remembers { OnOk result (Knows store.new (kept_as term voted log.now)) }
    ensures knows { OnOk result (store.new ≡ store_after C.stack C.format store.old (kept_as term voted log.now)) }
    ensures holds { OnOk result (IfSome (D.told device.new) (λ told.
        Holds C.stack C.format store.new (kept_as term voted log.now) told.disk)) }
    ensures unchanged { OnErr result (store.new ≡ store.old) }
    ensures who { store.new.who ≡ store.old.who }

    // A crash at any moment of the call leaves the state that was held or this one.
    ensures keeps { OnOk result (IfSome (D.told device.old)
        (Saves C.stack C.format store.old (kept_as term voted log.now))) }
    ensures crash { WhereTold (D.told device.old) (D.told device.new)
        (LeavesEither C.stack C.format store.old (kept_as term voted log.now)) }

    ensures causes { StateCounts (D.faults device.old) (D.faults device.new) result }
    ensures wants { GrowsFirst (D.told device.new ≡ D.told device.old) (D.wants device.old) (D.wants device.new) result }
    ensures begun { D.begun device.new ≡ true }
{
    store.write(alloc, device, term, voted, log, same)
}

/// Saves a state, as `save_change` does where nothing is known of which entries are held.
pub fn save<D: Device, C: Commands>(
    alloc: Global,
    store: &mut Store,
    device: &mut D,
    kept: &Kept<C>,
) -> Result<(), StateFault>
    requires begun { D.begun device.old ≡ true }
    requires who { IsNodeOf C.stack store.old.who }
    requires voted { VoteAmong store.old.who.nodes kept.now.voted }
    requires held { IfSome (D.told device.old) (IsHeldBefore C.stack C.format store.old kept.now) }
    ensures did { OnOk result (Did (D.told device.old) (D.told device.new) (state_acts C.stack C.format store.old kept.now)) }
    ensures stopped { OnErr result (StoppedIn (D.told device.old) (D.told device.new) (state_acts C.stack C.format store.old kept.now)) }
    ensures remembers { OnOk result (Knows store.new kept.now) }
    ensures knows { OnOk result (store.new ≡ store_after C.stack C.format store.old kept.now) }
    ensures holds { OnOk result (IfSome (D.told device.new) (λ told.
        Holds C.stack C.format store.new kept.now told.disk)) }
    ensures unchanged { OnErr result (store.new ≡ store.old) }
    ensures who { store.new.who ≡ store.old.who }
    ensures keeps { OnOk result (IfSome (D.told device.old) (Saves C.stack C.format store.old kept.now)) }
    ensures crash { WhereTold (D.told device.old) (D.told device.new) (LeavesEither C.stack C.format store.old kept.now) }
    ensures causes { StateCounts (D.faults device.old) (D.faults device.new) result }
    ensures wants { GrowsFirst (D.told device.new ≡ D.told device.old) (D.wants device.old) (D.wants device.new) result }
    ensures begun { D.begun device.new ≡ true }
{
    save_change::<D, C>(
        alloc,
        store,
        device,
        kept.term(),
        kept.voted(),
        kept.log(),
        0,
    )
}

/// What `save` does with the term, the vote and the log of a state, of which the first `same` entries have the terms of those that are
/// held: its acts, none where the state is held, and what the node knows once all of them were made. It costs as much as the entries that
/// follow these, but for a base, and no device.
pub fn save_acts<C: Commands>(
    alloc: Global,
    store: &Store,
    term: u64,
    voted: Option<Node>,
    log: &[Entry<C>],
    same: usize,
) -> Result<SavePlan, AllocError>
    requires who { IsNodeOf C.stack store.now.who }
    requires term { IsTerm term }
    requires voted { VoteAmong store.now.who.nodes voted }
    requires log { IsIndex (length log.now) }
    requires same { same ≤ common store.now.terms log.now }
    ensures acts { IfOk result (λ plan. acts_of plan.acts.items ≡ state_acts C.stack C.format store.now (kept_as term voted log.now)) }
    ensures fits { OnOk result (is_held store.now (kept_as term voted log.now) ≡ false
        → HasBytes C.stack C.format store.now (kept_as term voted log.now)) }

    // What the node knows after the change is what it knows after the save.
    ensures change { IfOk result (λ plan. plan.change ≡ change_to C.stack C.format store.now (kept_as term voted log.now)) }
    ensures knows { IfOk result (λ plan. changed_by store.now plan.change
        ≡ store_after C.stack C.format store.now (kept_as term voted log.now)) }
    ensures remembers { IfOk result (λ plan. Knows (changed_by store.now plan.change) (kept_as term voted log.now)) }
{
    store.plan(alloc, term, voted, log, same)
}

/// What the node knows once all acts of a save were made: that of before them, changed so. It costs as much as the entries that are new:
/// nothing is spelled anew, and the log is not looked at. An `Err` leaves the store as it was.
pub fn advance(store: &mut Store, change: StoreChange) -> Result<(), AllocError>
    ensures knows { OnOk result (store.new ≡ changed_by store.old change) }
    ensures unchanged { OnErr result (store.new ≡ store.old) }
{
    store.advance(change)
}
