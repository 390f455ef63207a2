ghost use Rattle.std.specs.Prelude.{◌≡◌, ◌<◌, suc, [], ◌∷◌, ◌++◌, IfOk, OnOk};
ghost use Rattle.slots.specs.Opening.{named};
ghost use Rattle.slots.specs.PatchLaws.{patch_acts};
ghost use Rattle.slots.specs.Saving.{flip_acts, fresh_acts, save_acts, slot_acts, sync_acts};
ghost use Rattle.store_acts.specs.StoreActs.{acts_of, number_of};

use crate::{AreaId, StoreAct};
use std::alloc::{AllocError, Global};

// Adds the acts that bring these bytes to the disk as the whole of a slot.
fn add_slot(acts: &mut Vec<StoreAct>, slot: AreaId, bytes: Vec<u8>) -> Result<(), AllocError>
    ensures { OnOk result (acts_of acts.new.items ≡ acts_of acts.old.items ++ slot_acts (number_of slot) bytes.items) }
{
    let len = bytes.len() as u64;
    acts.push(StoreAct::Write(slot, 0, bytes))?;
    acts.push(StoreAct::Cut(slot, len))?;
    acts.push(StoreAct::Sync(slot))?;
    Ok(())
}

// Adds the acts that bring bytes to the disk at a place of an area, whose other bytes stay.
fn add_patch(
    acts: &mut Vec<StoreAct>,
    area: AreaId,
    at: u64,
    bytes: Vec<u8>,
) -> Result<(), AllocError>
    ensures { OnOk result (acts_of acts.new.items ≡ acts_of acts.old.items ++ patch_acts (number_of area) at bytes.items) }
{
    acts.push(StoreAct::Write(area, at, bytes))?;
    acts.push(StoreAct::Sync(area))?;
    Ok(())
}

// Adds the acts that bring a selector to the disk.
fn add_flip(alloc: Global, acts: &mut Vec<StoreAct>, selector: u8) -> Result<(), AllocError>
    ensures { OnOk result (acts_of acts.new.items ≡ acts_of acts.old.items ++ flip_acts selector) }
{
    add_patch(
        acts,
        AreaId::Selector,
        0,
        Vec::from_slice(alloc, &[selector])?,
    )
}

/// The acts that save these bytes as the slot that the selector does not name, and then name it.
pub fn slot_saved(alloc: Global, selector: u8, bytes: Vec<u8>) -> Result<Vec<StoreAct>, AllocError>
    ensures { IfOk result (λ acts. acts_of acts.items ≡ save_acts selector bytes.items) }
{
    let mut acts = Vec::with_capacity(alloc, 5)?;
    add_slot(&mut acts, AreaId::other(selector), bytes)?;
    add_flip(alloc, &mut acts, selector.wrapping_add(1))?;
    Ok(acts)
}

/// The acts that write a record after the gate at this place of the slot that the selector names, and when it is on the disk open the
/// gate.
pub fn record_added(
    alloc: Global,
    selector: u8,
    gate: u64,
    bytes: Vec<u8>,
) -> Result<Vec<StoreAct>, AllocError>
    requires gate { suc gate < 18446744073709551616 }
    ensures { IfOk result (λ acts. acts_of acts.items
        ≡ patch_acts (named selector) (suc gate) bytes.items ++ patch_acts (named selector) gate (1 ∷ [])) }
{
    let slot = AreaId::named(selector);
    let mut acts = Vec::with_capacity(alloc, 4)?;
    add_patch(&mut acts, slot, gate + 1, bytes)?;
    add_patch(&mut acts, slot, gate, Vec::from_slice(alloc, &[1])?)?;
    Ok(acts)
}

/// The acts that write the slot of a first state twice, and name the first of the two.
pub fn slots_begun(alloc: Global, first: Vec<u8>) -> Result<Vec<StoreAct>, AllocError>
    ensures { IfOk result (λ acts. acts_of acts.items ≡ fresh_acts first.items) }
{
    let mut acts = Vec::with_capacity(alloc, 8)?;
    add_slot(&mut acts, AreaId::Slot0, Vec::from_slice(alloc, &first)?)?;
    add_slot(&mut acts, AreaId::Slot1, first)?;
    add_flip(alloc, &mut acts, 0)?;
    Ok(acts)
}

/// The acts that bring each area to the disk.
pub fn all_synced(alloc: Global) -> Result<Vec<StoreAct>, AllocError>
    ensures { IfOk result (λ acts. acts_of acts.items ≡ sync_acts) }
{
    let mut acts = Vec::with_capacity(alloc, 3)?;
    acts.push(StoreAct::Sync(AreaId::Slot0))?;
    acts.push(StoreAct::Sync(AreaId::Slot1))?;
    acts.push(StoreAct::Sync(AreaId::Selector))?;
    Ok(acts)
}
