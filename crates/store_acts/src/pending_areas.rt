ghost use Rattle.std.specs.Prelude.{◌≡◌, ◌%◌, OnOk, OnErr, IfOk};
ghost use Rattle.disk.specs.Areas.{area_at, changed, each};
ghost use Rattle.disk.specs.Disk.{contents, cut, settled, synced, written};
ghost use Rattle.disk.specs.Images.{follow, followed, image_of_kind, started, torn};
ghost use Rattle.store_acts.specs.PendingAreas.{FirstDone, image_of, trail_of};
ghost use Rattle.store_acts.specs.StoreActs.{act_of, acts_of, number_of};

use crate::{AreaId, Image, PendingArea, StoreAct};
use std::alloc::{AllocError, Global};

/// Three areas in memory, with what is pending on them.
#[derive(Drop)]
pub struct PendingAreas {
    slot0: PendingArea,
    slot1: PendingArea,
    selector: PendingArea,
}

impl PendingAreas {
    /// Areas with these bytes, and nothing pending.
    pub fn new(alloc: Global, first: Image) -> Self
        ensures { trail_of result ≡ started (each settled (image_of first)) }
    {
        PendingAreas {
            slot0: PendingArea::new(alloc, first.slot0),
            slot1: PendingArea::new(alloc, first.slot1),
            selector: PendingArea::new(alloc, first.selector),
        }
    }

    /// What a read of a whole area gives.
    pub fn bytes(&self, area: AreaId) -> &[u8]
        ensures { result.now ≡ area_at (contents (trail_of self.now).disk) (number_of area) }
    {
        match area {
            AreaId::Slot0 => self.slot0.bytes(),
            AreaId::Slot1 => self.slot1.bytes(),
            AreaId::Selector => self.selector.bytes(),
        }
    }

    // Writes into an area.
    fn write(&mut self, area: AreaId, at: u64, bytes: Vec<u8>) -> Result<(), AllocError>
        ensures ok { OnOk result ((trail_of self.new).disk ≡ changed (trail_of self.old).disk (number_of area) (written at bytes.items)) }
        ensures err { OnErr result ((trail_of self.new).disk ≡ (trail_of self.old).disk) }
        ensures stood { (trail_of self.new).stood ≡ (trail_of self.old).stood }
    {
        match area {
            AreaId::Slot0 => self.slot0.write(at, bytes),
            AreaId::Slot1 => self.slot1.write(at, bytes),
            AreaId::Selector => self.selector.write(at, bytes),
        }
    }

    // Cuts an area to a length.
    fn cut(&mut self, alloc: Global, area: AreaId, len: u64) -> Result<(), AllocError>
        ensures ok { OnOk result ((trail_of self.new).disk ≡ changed (trail_of self.old).disk (number_of area) (cut len)) }
        ensures err { OnErr result ((trail_of self.new).disk ≡ (trail_of self.old).disk) }
        ensures stood { (trail_of self.new).stood ≡ (trail_of self.old).stood }
    {
        match area {
            AreaId::Slot0 => self.slot0.cut(alloc, len),
            AreaId::Slot1 => self.slot1.cut(alloc, len),
            AreaId::Selector => self.selector.cut(alloc, len),
        }
    }

    // Syncs an area.
    fn sync(&mut self, area: AreaId)
        ensures { trail_of self.new ≡ follow (act_of (StoreAct.Sync area)) (trail_of self.old) }
    {
        match area {
            AreaId::Slot0 => self.slot0.sync(),
            AreaId::Slot1 => self.slot1.sync(),
            AreaId::Selector => self.selector.sync(),
        }
    }

    /// Does an act. Where memory is wanted nothing changes.
    pub fn act(&mut self, alloc: Global, act: StoreAct) -> Result<(), AllocError>
        ensures ok { OnOk result (trail_of self.new ≡ follow (act_of act) (trail_of self.old)) }
        ensures err { OnErr result (trail_of self.new ≡ trail_of self.old) }
    {
        match act {
            StoreAct::Write(area, at, bytes) => self.write(area, at, bytes),
            StoreAct::Cut(area, len) => self.cut(alloc, area, len),
            StoreAct::Sync(area) => {
                self.sync(area);
                Ok(())
            }
        }
    }

    /// Does these acts. Where memory is wanted those before an act are done, and it and those after it are not.
    pub fn act_all(&mut self, alloc: Global, acts: Vec<StoreAct>) -> Result<(), AllocError>
        ensures ok { OnOk result (trail_of self.new ≡ followed (trail_of self.old) (acts_of acts.items)) }
        ensures err { OnErr result (FirstDone (trail_of self.old) (acts_of acts.items) (trail_of self.new)) }
    {
        for act in acts {
            self.act(alloc, act)?;
        }
        Ok(())
    }

    // What stood on each area at its last sync.
    fn stood(self) -> Result<Image, AllocError>
        ensures { IfOk result (λ image. image_of image ≡ (trail_of self).stood) }
    {
        Ok(Image {
            slot0: self.slot0.stood()?,
            slot1: self.slot1.stood()?,
            selector: self.selector.stood()?,
        })
    }

    /// What reads gave.
    pub fn read(self) -> Image
        ensures { image_of result ≡ contents (trail_of self).disk }
    {
        Image {
            slot0: self.slot0.read(),
            slot1: self.slot1.read(),
            selector: self.selector.read(),
        }
    }

    // The same, with this byte in each place that is pending.
    fn torn(&self, alloc: Global, byte: u8) -> Result<Image, AllocError>
        ensures { IfOk result (λ image. image_of image ≡ each (torn byte) (trail_of self.now).disk) }
    {
        Ok(Image {
            slot0: self.slot0.torn(alloc, byte)?,
            slot1: self.slot1.torn(alloc, byte)?,
            selector: self.selector.torn(alloc, byte)?,
        })
    }

    /// What a stop leaves, by a word, of which only the remainder by 4 counts: at 0 what stood at the last syncs, at 1 what a read gives,
    /// at 2 and 3 the present lengths with `FF` or `00` in each place that is pending.
    pub fn stop(self, alloc: Global, word: u64) -> Result<Image, AllocError>
        ensures { IfOk result (λ image. image_of image ≡ image_of_kind (word % 4) (trail_of self)) }
    {
        match word % 4 {
            0 => self.stood(),
            1 => Ok(self.read()),
            2 => self.torn(alloc, 0xFF),
            _ => self.torn(alloc, 0),
        }
    }
}
