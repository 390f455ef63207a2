ghost use Rattle.std.specs.Prelude.{◌≡◌, ◌≢◌, ◌+◌, ◌*◌, ◌<◌, true, [], IfErr, IfOk, IfSome, OnErr, OnOk};
ghost use Rattle.disk.specs.Areas.{area_at};
ghost use Rattle.disk.specs.Disk.{contents};
ghost use Rattle.node_acts.specs.StateActs.{first_kept, renewing_acts, store_at_base, store_found};
ghost use Rattle.node_acts.specs.StateLaws.{OpeningFits};
ghost use Rattle.node_acts.specs.Stores.{Holds, Knows, found_by};
ghost use Rattle.node_body.specs.Bodies.{VoteAmong, body, body_of};
ghost use Rattle.node_body.specs.Slots.{base_of};
ghost use Rattle.node_body.specs.declared.bases.TheConstants.{MAX_RECORD_LEN};
ghost use Rattle.node_body.specs.declared.version.Version.TheVariants.{One};
ghost use Rattle.node_device.specs.Telling.{Did, StoppedIn, WhereTold};
ghost use Rattle.node_state.specs.Answers.{Answers, FoundSo, IfRefused, OpenCounts, OpenGrowsFirst, OpenedSo, RenewedFits, acts_told, kept_in, slot_acts_told, store_in};
ghost use Rattle.node_state.specs.Calls.{GrowsFirst, IsNodeOf, StateCounts};
ghost use Rattle.node_state.specs.Crashes.{LeavesFound, StoppedWith};
ghost use Rattle.node_state.specs.Ends.{renewed_end};
ghost use Rattle.slots.specs.Opening.{Not, Refused, named, opening};
ghost use Rattle.slots.specs.Saving.{fresh_acts, sync_acts};
ghost use Rattle.store_acts.specs.StoreActs.{acts_of};

use crate::common::terms_of;
use crate::saving::{Saving, saved_as_base};
use crate::store::JournalEnd;
use crate::{StateFault, Store, find_in_area, make_acts, read_front, sync_all};
use node_body::{Commands, Held, Journal, MAX_RECORDS, Version, Who, Why, make_base};
use node_device::Device;
use raft_types::{Entries, Kept};
use std::alloc::{AllocError, Global};
use store_acts::{StoreAct, slots_begun};
use thiserror::Error;

/// Why the areas of a node are refused, the first that applies.
#[derive(Clone, Copy, Debug, PartialEq, Eq)]
pub enum Refusal {
    /// Area 2 has more than one byte.
    Selector,
    /// The slot that the selector names is not one of this node.
    Slot(Why),
}

/// Why areas were not opened.
#[derive(Clone, Copy, Debug, PartialEq, Eq, Error)]
pub enum OpenFault {
    /// A store call failed.
    #[error("a store call failed")]
    Store,
    /// Want of memory.
    #[error("out of memory")]
    Memory,
    /// What was found is not this node's state. Nothing was written or cut.
    #[error("the areas are refused")]
    Refused(Refusal),
}

impl From<StateFault> for OpenFault {
    ghost use Rattle.node_state.specs.Answers.{fault_of};

    ghost from_gives = { λ fault given. given ≡ fault_of fault };

    fn from(fault: StateFault) -> OpenFault {
        match fault {
            StateFault::Store => OpenFault::Store,
            StateFault::Memory => OpenFault::Memory,
        }
    }
}

impl From<AllocError> for OpenFault {
    ghost use Rattle.node_state.specs.declared.opening.OpenFault.TheVariants as fault;

    ghost from_gives = { λ _ given. given ≡ fault.Memory };

    fn from(_e: AllocError) -> OpenFault {
        OpenFault::Memory
    }
}

/// What the areas of a node opened as.
#[derive(Drop)]
pub enum Opened<C> {
    /// Area 2, the selector, was empty, whatever the slots held, and the areas now hold the first state: term 0, no vote, no entries.
    Fresh(Store),
    /// They hold this state.
    Held(Store, Kept<C>),
}

// What opening does where area 2 is empty: the acts that write the first state, whatever the slots hold, and what is known then.
pub(crate) fn begun<C: Commands>(
    alloc: Global,
    who: &Who,
) -> Result<(Vec<StoreAct>, Store), AllocError>
    requires who { IsNodeOf C.stack who.now }
    ensures acts { IfOk result (λ p. acts_of p.0.items ≡ fresh_acts (base_of C.stack C.format who.now first_kept)) }
    ensures fits { OnOk result ((body C.stack C.format).Fits (body_of who.now first_kept)) }
    ensures knows { IfOk result (λ p. p.1 ≡ store_at_base C.stack C.format who.now 0 first_kept) }
    ensures remembers { IfOk result (λ p. Knows p.1 (first_kept {C = C})) }
{
    let first = Kept::<C>::new(0, None, Entries::new(Vec::new(alloc)));
    let base = make_base(alloc, who, &first)?;
    let end = JournalEnd {
        selector: 0,
        gate: base.len() as u64 - 1,
        left: MAX_RECORDS,
    };
    let acts = slots_begun(alloc, base)?;
    Ok((acts, Store::new(*who, end, 0, None, Vec::new(alloc))))
}

// Writes the first state, whatever the slots hold.
fn open_fresh<D: Device, C: Commands>(
    alloc: Global,
    device: &mut D,
    who: &Who,
) -> Result<Store, StateFault>
    requires begun { D.begun device.old ≡ true }
    requires who { IsNodeOf C.stack who.now }
    ensures did { OnOk result (Did (D.told device.old) (D.told device.new) (fresh_acts (base_of C.stack C.format who.now first_kept))) }
    ensures fits { OnOk result ((body C.stack C.format).Fits (body_of who.now first_kept)) }
    ensures knows { IfOk result (λ store. store ≡ store_at_base C.stack C.format who.now 0 first_kept) }
    ensures remembers { IfOk result (λ store. Knows store (first_kept {C = C})) }
    ensures stopped { OnErr result (StoppedWith ((body C.stack C.format).Fits (body_of who.now first_kept))
        (D.told device.old) (D.told device.new) [] (fresh_acts (base_of C.stack C.format who.now first_kept))) }
    ensures causes { StateCounts (D.faults device.old) (D.faults device.new) result }
    ensures wants { GrowsFirst (D.told device.new ≡ D.told device.old) (D.wants device.old) (D.wants device.new) result }
    ensures begun { D.begun device.new ≡ true }
{
    let (acts, store) = begun::<C>(alloc, who)?;
    make_acts(device, &acts)?;
    Ok(store)
}

// What renews a slot that was found: one of version 1 is saved anew, as a base.
fn renewal<C: Commands>(
    alloc: Global,
    who: &Who,
    version: Version,
    found: JournalEnd,
    kept: &Kept<C>,
) -> Result<Saving, AllocError>
    requires who { IsNodeOf C.stack who.now }
    requires voted { VoteAmong who.now.nodes kept.now.voted }
    requires room { found.gate + found.left * MAX_RECORD_LEN < 18446744073709551616 }
    ensures acts { IfOk result (λ saving. acts_of saving.acts.items
        ≡ renewing_acts C.stack C.format who.now found.selector version kept.now) }
    ensures fits { OnOk result (version ≡ One → (body C.stack C.format).Fits (body_of who.now kept.now)) }
    ensures end { IfOk result (λ saving. saving.end ≡ renewed_end C.stack C.format who.now version found kept.now) }
    ensures room { IfOk result (λ saving. saving.end.gate + saving.end.left * MAX_RECORD_LEN < 18446744073709551616) }
{
    match version {
        Version::One => {
            let (term, voted, log) = (kept.term(), kept.voted(), kept.log());
            saved_as_base(alloc, who, found.selector, term, voted, log)
        }
        Version::Two => Ok(Saving {
            acts: Vec::new(alloc),
            end: found,
        }),
    }
}

// What opening does with a slot that was found by a front of so many bytes: the acts that renew it, what is known then, and the state.
pub(crate) fn taken<C: Commands>(
    alloc: Global,
    who: &Who,
    selector: u8,
    len: usize,
    held: Held<C>,
) -> Result<(Vec<StoreAct>, Store, Kept<C>), AllocError>
    requires who { IsNodeOf C.stack who.now }
    requires voted { VoteAmong who.now.nodes held.journal.kept.voted }
    requires len { len < 9223372036854775808 }
    ensures acts { IfOk result (λ p. acts_of p.0.items
        ≡ renewing_acts C.stack C.format who.now selector held.version held.journal.kept) }
    ensures fits { OnOk result (held.version ≡ One → (body C.stack C.format).Fits (body_of who.now held.journal.kept)) }
    ensures knows { IfOk result (λ p. p.1 ≡ store_found C.stack C.format who.now selector len held.version held) }
    ensures kept { IfOk result (λ p. p.2 ≡ held.journal.kept) }
    ensures remembers { IfOk result (λ p. Knows p.1 p.2) }
{
    let version = held.version;
    let Journal { kept, left, hidden } = held.journal;
    let terms = terms_of(alloc, kept.log())?;
    let gate = len.saturating_sub(hidden).saturating_sub(1) as u64;
    let found = JournalEnd {
        selector,
        gate,
        left,
    };
    let saving = renewal(alloc, who, version, found, &kept)?;
    let store = Store::new(*who, saving.end, kept.term(), kept.voted(), terms);
    Ok((saving.acts, store, kept))
}

// Goes on with a slot that was found by a front of so many bytes.
fn hold<D: Device, C: Commands>(
    alloc: Global,
    device: &mut D,
    who: &Who,
    selector: u8,
    len: usize,
    held: Held<C>,
) -> Result<(Store, Kept<C>), StateFault>
    requires begun { D.begun device.old ≡ true }
    requires who { IsNodeOf C.stack who.now }
    requires voted { VoteAmong who.now.nodes held.journal.kept.voted }
    requires len { len < 9223372036854775808 }
    ensures did { OnOk result (Did (D.told device.old) (D.told device.new)
        (renewing_acts C.stack C.format who.now selector held.version held.journal.kept)) }
    ensures fits { OnOk result (held.version ≡ One → (body C.stack C.format).Fits (body_of who.now held.journal.kept)) }
    ensures knows { IfOk result (λ p. p.0 ≡ store_found C.stack C.format who.now selector len held.version held) }
    ensures kept { IfOk result (λ p. p.1 ≡ held.journal.kept) }
    ensures remembers { IfOk result (λ p. Knows p.0 p.1) }
    ensures stopped { OnErr result (StoppedWith (held.version ≡ One → (body C.stack C.format).Fits (body_of who.now held.journal.kept))
        (D.told device.old) (D.told device.new) [] (renewing_acts C.stack C.format who.now selector held.version held.journal.kept)) }
    ensures causes { StateCounts (D.faults device.old) (D.faults device.new) result }
    ensures wants { GrowsFirst (D.told device.new ≡ D.told device.old) (D.wants device.old) (D.wants device.new) result }
    ensures begun { D.begun device.new ≡ true }
{
    let (acts, store, kept) = taken(alloc, who, selector, len, held)?;
    make_acts(device, &acts)?;
    Ok((store, kept))
}

// Opens the slot that the selector names.
fn open_slot<D: Device, C: Commands>(
    alloc: Global,
    device: &mut D,
    who: &Who,
    selector: u8,
) -> Result<(Store, Kept<C>), OpenFault>
    requires begun { D.begun device.old ≡ true }
    requires who { IsNodeOf C.stack who.now }
    ensures who { IfOk result (λ p. p.0.who ≡ who.now) }
    ensures remembers { IfOk result (λ p. Knows p.0 p.1) }
    ensures voted { IfOk result (λ p. VoteAmong who.now.nodes p.1.voted) }
    ensures found { IfOk result (λ p. IfSome (D.told device.old) (FoundSo C.stack C.format who.now selector p.0 p.1)) }
    ensures did { OnOk result (Did (D.told device.old) (D.told device.new)
        (slot_acts_told C.stack C.format who.now selector (D.told device.old))) }
    ensures stopped { OnErr result (StoppedWith
        (IfSome (D.told device.old) (RenewedFits C.stack C.format who.now selector))
        (D.told device.old) (D.told device.new) []
        (slot_acts_told C.stack C.format who.now selector (D.told device.old))) }
    ensures refused { IfErr result (λ fault. IfRefused fault (λ why. (D.told device.new ≡ D.told device.old)
        × IfSome (D.told device.old) (λ told.
        found_by C.stack C.format who.now (area_at told.disk (named selector)).bytes ≡ Not why))) }
    ensures causes { OpenCounts (D.faults device.old) (D.faults device.new) result }
    ensures wants { OpenGrowsFirst (D.told device.new ≡ D.told device.old) (D.wants device.old) (D.wants device.new) result }
    ensures begun { D.begun device.new ≡ true }
{
    let (len, found) = find_in_area::<D, C>(alloc, device, who, selector % 2)?;
    match found {
        Ok(held) => Ok(hold(alloc, device, who, selector, len, held)?),
        Err(why) => Err(OpenFault::Refused(Refusal::Slot(why))),
    }
}

// Opens the areas. What a crash leaves follows from the acts.
fn open_areas<D: Device, C: Commands>(
    alloc: Global,
    device: &mut D,
    who: &Who,
) -> Result<Opened<C>, OpenFault>
    requires begun { D.begun device.old ≡ true }
    requires who { IsNodeOf C.stack who.now }
    ensures who { IfOk result (λ opened. (store_in opened).who ≡ who.now) }
    ensures remembers { IfOk result (λ opened. Knows (store_in opened) (kept_in opened)) }
    ensures voted { IfOk result (λ opened. VoteAmong who.now.nodes (kept_in opened).voted) }
    ensures opened { IfOk result (λ opened. IfSome (D.told device.old) (OpenedSo C.stack C.format who.now opened)) }
    ensures did { OnOk result (Did (D.told device.old) (D.told device.new)
        (acts_told C.stack C.format who.now (D.told device.old))) }
    ensures stopped { OnErr result (StoppedWith
        (IfSome (D.told device.old) (λ told. OpeningFits C.stack C.format who.now told.disk))
        (D.told device.old) (D.told device.new) sync_acts (acts_told C.stack C.format who.now (D.told device.old))) }
    ensures refused { IfErr result (λ fault. IfRefused fault (λ why. Did (D.told device.old) (D.told device.new) sync_acts
        × IfSome (D.told device.old) (λ told.
        opening (found_by C.stack C.format who.now) (contents told.disk) ≡ Refused why))) }
    ensures causes { OpenCounts (D.faults device.old) (D.faults device.new) result }
    ensures wants { OpenGrowsFirst (Did (D.told device.old) (D.told device.new) sync_acts) (D.wants device.old) (D.wants device.new) result }
    ensures begun { D.begun device.new ≡ true }
{
    sync_all(device)?;
    let selector = read_front(alloc, device, 2, 2)?;
    match selector.as_slice() {
        [] => Ok(Opened::Fresh(open_fresh::<D, C>(alloc, device, who)?)),
        [named] => {
            let (store, kept) = open_slot::<D, C>(alloc, device, who, *named)?;
            Ok(Opened::Held(store, kept))
        }
        [_, _, ..] => Err(OpenFault::Refused(Refusal::Selector)),
    }
}

/// Opens the areas of a node of the stack of `C`. Each area is synced. Where area 2 is empty, both slots then get the first state; else
/// the slot that its byte names is read, to its first closed gate, and one of version 1 is saved as a base.
pub fn open<D: Device, C: Commands>(
    alloc: Global,
    device: &mut D,
    who: &Who,
) -> Result<Opened<C>, OpenFault>
    requires begun { D.begun device.old ≡ true }
    requires who { IsNodeOf C.stack who.now }

    // What the areas open as; then they hold that state, as the store knows.
    ensures answer { IfOk result (λ opened. IfSome (D.told device.old)
        (λ told. Answers opened (opening (found_by C.stack C.format who.now) (contents told.disk)))) }
    ensures holds { IfOk result (λ opened. IfSome (D.told device.new)
        (λ told. Holds C.stack C.format (store_in opened) (kept_in opened) told.disk)) }

    // Also where nothing is told: the store is of this node and remembers the state, from which the node can start again.
    ensures who { IfOk result (λ opened. (store_in opened).who ≡ who.now) }
    ensures remembers { IfOk result (λ opened. Knows (store_in opened) (kept_in opened)) }
    ensures voted { IfOk result (λ opened. VoteAmong who.now.nodes (kept_in opened).voted) }

    // The acts are those of an opening, or are cut short.
    ensures did { OnOk result (Did (D.told device.old) (D.told device.new)
        (acts_told C.stack C.format who.now (D.told device.old))) }
    ensures stopped { OnErr result (StoppedIn (D.told device.old) (D.told device.new)
        (acts_told C.stack C.format who.now (D.told device.old))) }

    // A refusal is what the areas open as, and then nothing was written or cut.
    ensures refused { IfErr result (λ fault. IfRefused fault (λ why. Did (D.told device.old) (D.told device.new) sync_acts
        × IfSome (D.told device.old) (λ told.
        opening (found_by C.stack C.format who.now) (contents told.disk) ≡ Refused why))) }

    // A crash at any moment of the call leaves what was found.
    ensures crash { WhereTold (D.told device.old) (D.told device.new) (LeavesFound C.stack C.format who.now) }

    ensures causes { OpenCounts (D.faults device.old) (D.faults device.new) result }
    ensures wants { OpenGrowsFirst (Did (D.told device.old) (D.told device.new) sync_acts) (D.wants device.old) (D.wants device.new) result }
    ensures begun { D.begun device.new ≡ true }
{
    open_areas::<D, C>(alloc, device, who)
}
