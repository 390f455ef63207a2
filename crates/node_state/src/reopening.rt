ghost use Rattle.std.specs.Prelude.{◌≡◌, ◌++◌, IfErr, IfOk, OnOk};
ghost use Rattle.disk.specs.Areas.{area_at, each};
ghost use Rattle.disk.specs.Disk.{settled};
ghost use Rattle.disk.specs.Images.{followed, started};
ghost use Rattle.node_acts.specs.StateActs.{acts_by_selector, acts_on_slot, first_kept, opening_acts, store_at_base};
ghost use Rattle.node_acts.specs.Stores.{found_by};
ghost use Rattle.node_body.specs.Bodies.{body, body_of};
ghost use Rattle.node_body.specs.Slots.{slot_found};
ghost use Rattle.node_device.specs.Telling.{Told};
ghost use Rattle.node_state.specs.Answers.{FoundSo, OpenedSo, no_bytes, refusal_of, rested};
ghost use Rattle.node_state.specs.Calls.{IsNodeOf};
ghost use Rattle.slots.specs.Opening.{Not, Refused, named, opening};
ghost use Rattle.slots.specs.Saving.{sync_acts};
ghost use Rattle.store_acts.specs.PendingAreas.{image_of, trail_of};
ghost use Rattle.store_acts.specs.StoreActs.{acts_of};

use crate::opening::{begun, taken};
use crate::{Opened, Refusal, Store};
use node_body::{Commands, Who, find_slot};
use raft_types::Kept;
use std::alloc::{AllocError, Global};
use store_acts::{AreaId, Image, PendingAreas, StoreAct, all_synced};

// The acts by which a slot with these bytes is opened, what is known then, and the state that it holds.
fn reopened_slot<C: Commands>(
    alloc: Global,
    who: &Who,
    selector: u8,
    bytes: &[u8],
) -> Result<Result<(Vec<StoreAct>, Store, Kept<C>), Refusal>, AllocError>
    requires who { IsNodeOf C.stack who.now }
    ensures acts { IfOk result (λ r. IfOk r (λ p. acts_of p.0.items
        ≡ acts_on_slot C.stack C.format who.now selector (slot_found C.stack C.format who.now bytes.now))) }
    ensures found { IfOk result (λ r. IfOk r (λ p. (told : Told) → (area_at told.disk (named selector)).bytes ≡ bytes.now
        → FoundSo C.stack C.format who.now selector p.1 p.2 told)) }
    ensures refused { IfOk result (λ r. IfErr r (λ why. found_by C.stack C.format who.now bytes.now ≡ Not (refusal_of why))) }
{
    match find_slot::<C>(alloc, who, bytes)? {
        Ok(held) => Ok(Ok(taken(alloc, who, selector, bytes.len(), held)?)),
        Err(why) => Ok(Err(Refusal::Slot(why))),
    }
}

// The acts by which areas with these bytes are opened once they are synced, and what they open as.
fn reopened<C: Commands>(
    alloc: Global,
    who: &Who,
    image: &Image,
) -> Result<Result<(Vec<StoreAct>, Opened<C>), Refusal>, AllocError>
    requires who { IsNodeOf C.stack who.now }
    ensures acts { IfOk result (λ r. IfOk r (λ p. acts_of p.0.items
        ≡ acts_by_selector C.stack C.format who.now (image_of image.now) image.now.selector.items)) }
    ensures opened { IfOk result (λ r. IfOk r (λ p. OpenedSo C.stack C.format who.now p.1 (rested (image_of image.now)))) }
    ensures refused { IfOk result (λ r. IfErr r (λ why.
        opening (found_by C.stack C.format who.now) (image_of image.now) ≡ Refused (refusal_of why))) }
{
    match image.selector.as_slice() {
        [] => {
            let (acts, store) = begun::<C>(alloc, who)?;
            Ok(Ok((acts, Opened::Fresh(store))))
        }
        [selector] => {
            let slot = image.slot(*selector);
            match reopened_slot::<C>(alloc, who, *selector, slot)? {
                Ok((acts, store, kept)) => Ok(Ok((acts, Opened::Held(store, kept)))),
                Err(why) => Ok(Err(why)),
            }
        }
        [_, _, ..] => Ok(Err(Refusal::Selector)),
    }
}

// Areas in memory with these bytes, of which nothing is pending, after syncs and these acts.
fn areas_after(alloc: Global, image: Image, acts: Vec<StoreAct>) -> Result<PendingAreas, AllocError>
    ensures { IfOk result (λ areas. trail_of areas
        ≡ followed (started (each settled (image_of image))) (sync_acts ++ acts_of acts.items)) }
{
    let mut areas = PendingAreas::new(alloc, image);
    areas.act_all(alloc, all_synced(alloc)?)?;
    areas.act_all(alloc, acts)?;
    Ok(areas)
}

/// Opens empty areas in memory, as `open` does it on a device: what is known of them then, and the areas after the acts of the opening.
pub fn open_empty<C: Commands>(
    alloc: Global,
    who: &Who,
) -> Result<(Store, PendingAreas), AllocError>
    requires who { IsNodeOf C.stack who.now }
    ensures knows { IfOk result (λ p. p.0 ≡ store_at_base C.stack C.format who.now 0 first_kept) }
    ensures areas { IfOk result (λ p. trail_of p.1
        ≡ followed (started (each settled no_bytes)) (opening_acts C.stack C.format who.now no_bytes)) }
    ensures fits { OnOk result ((body C.stack C.format).Fits (body_of who.now first_kept)) }
{
    let (acts, store) = begun::<C>(alloc, who)?;
    let areas = areas_after(alloc, Image::empty(alloc), acts)?;
    Ok((store, areas))
}

/// Opens areas in memory with these bytes, of which nothing is pending, as `open` does it on a device: what is known of them then, the
/// state that they hold, and the areas after the acts of the opening.
pub fn reopen<C: Commands>(
    alloc: Global,
    who: &Who,
    image: Image,
) -> Result<Result<(Opened<C>, PendingAreas), Refusal>, AllocError>
    requires who { IsNodeOf C.stack who.now }

    // What the areas open as, and what is known of them.
    ensures opened { IfOk result (λ r. IfOk r (λ p. OpenedSo C.stack C.format who.now p.0 (rested (image_of image)))) }

    // The areas after the acts of an opening.
    ensures areas { IfOk result (λ r. IfOk r (λ p. trail_of p.1
        ≡ followed (started (each settled (image_of image))) (opening_acts C.stack C.format who.now (image_of image)))) }
    ensures refused { IfOk result (λ r. IfErr r (λ why.
        opening (found_by C.stack C.format who.now) (image_of image) ≡ Refused (refusal_of why))) }
{
    match reopened::<C>(alloc, who, &image)? {
        Ok((acts, opened)) => {
            let areas = areas_after(alloc, image, acts)?;
            Ok(Ok((opened, areas)))
        }
        Err(why) => Ok(Err(why)),
    }
}
