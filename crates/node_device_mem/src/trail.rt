ghost use Rattle.std.specs.Prelude.{◌≡◌, ℕ, List, take, OnOk, IfOk};
ghost use Rattle.disk.specs.Images.{started, follow, followed, image_of_kind};
ghost use Rattle.node_device_mem.specs.MemoryDisks.{image_of, disk_of};
ghost use Rattle.node_device_mem.specs.Histories.{act_of, all_acts};
ghost use Rattle.node_device_mem.specs.MemoryTrails.{trail_of};

use crate::memory_disk::{Areas, MemoryDisk};
use crate::past::{Past, PastAct};
use std::alloc::{AllocError, Global};

/// Areas that follow the acts of a record, and what stood on each at its last sync.
#[derive(Drop)]
pub struct MemoryTrail {
    disk: MemoryDisk,
    stood: Areas,
}

impl MemoryTrail {
    /// Areas that have followed no act yet.
    pub fn new(alloc: Global, first: &MemoryDisk) -> Result<Self, AllocError>
        ensures { IfOk result (λ trail. trail_of trail ≡ started (disk_of first.now)) }
    {
        Ok(MemoryTrail {
            disk: first.copy(alloc)?,
            stood: first.areas(alloc)?,
        })
    }

    /// Does an act. A write or cut that failed counts as done.
    pub fn follow(&mut self, alloc: Global, act: &PastAct) -> Result<(), AllocError>
        ensures { OnOk result (trail_of self.new ≡ follow (act_of act.now) (trail_of self.old)) }
    {
        match act {
            PastAct::Wrote(area, at, bytes) | PastAct::WriteFailed(area, at, bytes) => {
                self.disk.write(alloc, *area, *at, bytes)
            }
            PastAct::Cut(area, len) | PastAct::CutFailed(area, len) => {
                self.disk.cut(alloc, *area, *len)
            }
            PastAct::Synced(area) => {
                let bytes = Vec::from_slice(alloc, self.disk.area(*area))?;
                self.stood.put(*area, bytes);
                self.disk.sync(*area);
                Ok(())
            }
            _ => Ok(()),
        }
    }

    /// Does so many of these acts, the clock values between them counted too.
    pub fn follow_all(&mut self, alloc: Global, past: &[Past], acts: u64) -> Result<(), AllocError>
        ensures { OnOk result ((clock : List ℕ) (from nows : ℕ) →
            trail_of self.new ≡ followed (trail_of self.old) (take acts (all_acts clock past.now from nows))) }
    {
        let mut left = acts;
        for act in past {
            if left <= act.nows {
                return Ok(());
            }
            left -= act.nows + 1;
            self.follow(alloc, &act.act)?;
        }
        Ok(())
    }

    /// The image of a kind: 0 what stood at the last syncs, 1 what a read gives, 2 and above the present lengths with `FF` or `00`
    /// in each place that is pending.
    pub fn image(&self, alloc: Global, kind: u32) -> Result<Areas, AllocError>
        ensures { IfOk result (λ areas. image_of areas ≡ image_of_kind kind (trail_of self.now)) }
    {
        match kind {
            0 => self.stood.copy(alloc),
            1 => self.disk.areas(alloc),
            2 => self.disk.torn(alloc, 0xFF),
            _ => self.disk.torn(alloc, 0),
        }
    }
}
