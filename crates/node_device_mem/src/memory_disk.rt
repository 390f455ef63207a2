ghost use Rattle.std.specs.Prelude.{◌≡◌, ◌≤◌, length, drop, OnOk, OnErr, IfOk};
ghost use Rattle.outside.specs.Streams.{Gives};
ghost use Rattle.disk.specs.Areas.{area_at, changed, each};
ghost use Rattle.disk.specs.Disk.{contents, settled, written, cut, synced};
ghost use Rattle.disk.specs.Images.{torn};
ghost use Rattle.node_device_mem.specs.MemoryDisks.{image_of, disk_of};

use crate::area::MemoryArea;
use std::alloc::{AllocError, Global};

/// The bytes of three areas.
#[derive(Drop)]
pub struct Areas {
    pub slot0: Vec<u8>,
    pub slot1: Vec<u8>,
    pub selector: Vec<u8>,
}

impl Areas {
    /// The same once more.
    pub fn copy(&self, alloc: Global) -> Result<Self, AllocError>
        ensures { IfOk result (λ areas. image_of areas ≡ image_of self.now) }
    {
        Ok(Areas {
            slot0: Vec::from_slice(alloc, &self.slot0)?,
            slot1: Vec::from_slice(alloc, &self.slot1)?,
            selector: Vec::from_slice(alloc, &self.selector)?,
        })
    }

    /// Puts these bytes into an area. A number above 2 names area 2, here and below.
    pub fn put(&mut self, area: u8, bytes: Vec<u8>)
        ensures { image_of self.new ≡ changed (image_of self.old) area (λ _. bytes.items) }
    {
        match area {
            0 => self.slot0 = bytes,
            1 => self.slot1 = bytes,
            _ => self.selector = bytes,
        }
    }
}

/// Three areas in memory, with what is pending on them.
#[derive(Drop)]
pub struct MemoryDisk {
    slot0: MemoryArea,
    slot1: MemoryArea,
    selector: MemoryArea,
}

impl MemoryDisk {
    /// These areas, with nothing pending. What is written, cut and synced then is as if an earlier process had done it.
    pub fn new(alloc: Global, areas: Areas) -> Self
        ensures { disk_of result ≡ each settled (image_of areas) }
    {
        MemoryDisk {
            slot0: MemoryArea::new(alloc, areas.slot0),
            slot1: MemoryArea::new(alloc, areas.slot1),
            selector: MemoryArea::new(alloc, areas.selector),
        }
    }

    /// The same once more.
    pub fn copy(&self, alloc: Global) -> Result<Self, AllocError>
        ensures { IfOk result (λ disk. disk_of disk ≡ disk_of self.now) }
    {
        Ok(MemoryDisk {
            slot0: self.slot0.copy(alloc)?,
            slot1: self.slot1.copy(alloc)?,
            selector: self.selector.copy(alloc)?,
        })
    }

    /// What a read of a whole area gives.
    pub fn area(&self, area: u8) -> &[u8]
        ensures { result.now ≡ area_at (contents (disk_of self.now)) area }
    {
        match area {
            0 => self.slot0.bytes(),
            1 => self.slot1.bytes(),
            _ => self.selector.bytes(),
        }
    }

    /// Reads an area from a place on, into the front of the buffer.
    pub fn read(&self, area: u8, at: u64, buf: &mut [u8]) -> usize
        ensures within { result ≤ length buf.old }
        ensures gives { Gives (drop at (area_at (disk_of self.now) area).bytes) result buf.old buf.new }
    {
        match area {
            0 => self.slot0.read(at, buf),
            1 => self.slot1.read(at, buf),
            _ => self.selector.read(at, buf),
        }
    }

    /// Writes into an area. Where memory is wanted nothing changes.
    pub fn write(
        &mut self,
        alloc: Global,
        area: u8,
        at: u64,
        bytes: &[u8],
    ) -> Result<(), AllocError>
        ensures ok { OnOk result (disk_of self.new ≡ changed (disk_of self.old) area (written at bytes.now)) }
        ensures err { OnErr result (disk_of self.new ≡ disk_of self.old) }
    {
        match area {
            0 => self.slot0.write(alloc, at, bytes),
            1 => self.slot1.write(alloc, at, bytes),
            _ => self.selector.write(alloc, at, bytes),
        }
    }

    /// Cuts an area to a length. Where memory is wanted nothing changes.
    pub fn cut(&mut self, alloc: Global, area: u8, len: u64) -> Result<(), AllocError>
        ensures ok { OnOk result (disk_of self.new ≡ changed (disk_of self.old) area (cut len)) }
        ensures err { OnErr result (disk_of self.new ≡ disk_of self.old) }
    {
        match area {
            0 => self.slot0.cut(alloc, len),
            1 => self.slot1.cut(alloc, len),
            _ => self.selector.cut(alloc, len),
        }
    }

    /// Syncs an area.
    pub fn sync(&mut self, area: u8)
        ensures { disk_of self.new ≡ changed (disk_of self.old) area synced }
    {
        match area {
            0 => self.slot0.sync(),
            1 => self.slot1.sync(),
            _ => self.selector.sync(),
        }
    }

    /// What three reads give.
    pub fn areas(&self, alloc: Global) -> Result<Areas, AllocError>
        ensures { IfOk result (λ areas. image_of areas ≡ contents (disk_of self.now)) }
    {
        Ok(Areas {
            slot0: Vec::from_slice(alloc, self.slot0.bytes())?,
            slot1: Vec::from_slice(alloc, self.slot1.bytes())?,
            selector: Vec::from_slice(alloc, self.selector.bytes())?,
        })
    }

    /// The same, with this byte in each place that is pending.
    pub fn torn(&self, alloc: Global, byte: u8) -> Result<Areas, AllocError>
        ensures { IfOk result (λ areas. image_of areas ≡ each (torn byte) (disk_of self.now)) }
    {
        Ok(Areas {
            slot0: self.slot0.torn(alloc, byte)?,
            slot1: self.slot1.torn(alloc, byte)?,
            selector: self.selector.torn(alloc, byte)?,
        })
    }
}
