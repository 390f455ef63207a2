ghost use Rattle.std.specs.Prelude.{◌≡◌, ◌≤◌, ◌-◌, ◌&&◌, nat_le, nat_lt, length, drop, OnOk, OnErr, IfOk};
ghost use Rattle.std.specs.List.{list_any};
ghost use Rattle.outside.specs.Streams.{Gives};
ghost use Rattle.disk.specs.Disk.{overwritten, resized, written, cut, synced, settled, is_pending};
ghost use Rattle.disk.specs.Images.{torn};
ghost use Rattle.node_device_mem.specs.MemoryAreas.{area_of};

use std::alloc::{AllocError, Global};

/// An area in memory, with what is pending on it.
#[derive(Drop)]
pub struct MemoryArea {
    // what a read gives
    bytes: Vec<u8>,
    // the place and the number of bytes of each pending write, and the length before each pending act, the newest first
    ranges: Vec<(u64, u64)>,
    lengths: Vec<u64>,
}

// The bytes with others written over them. A gap before these is filled with 0.
fn overwrite(alloc: Global, old: &[u8], at: usize, bytes: &[u8]) -> Result<Vec<u8>, AllocError>
    ensures { IfOk result (λ v. v.items ≡ overwritten old.now at bytes.now) }
{
    if bytes.is_empty() {
        return Vec::from_slice(alloc, old);
    }
    let mut new = Vec::from_slice(alloc, old)?;
    new.resize(at, 0)?;
    new.extend_from_slice(bytes)?;
    let end = at.saturating_add(bytes.len()).min(old.len());
    new.extend_from_slice(&old[end..])?;
    Ok(new)
}

// The bytes cut to a length, or filled up to it with 0.
fn resize(alloc: Global, old: &[u8], len: usize) -> Result<Vec<u8>, AllocError>
    ensures { IfOk result (λ v. v.items ≡ resized len old.now) }
{
    let mut new = Vec::from_slice(alloc, old)?;
    new.resize(len, 0)?;
    Ok(new)
}

// Reads bytes from a place on, as many as there are and as fit.
fn read_from(bytes: &[u8], at: usize, buf: &mut [u8]) -> usize
    ensures within { result ≤ length buf.old }
    ensures gives { Gives (drop at bytes.now) result buf.old buf.new }
{
    let start = at.min(bytes.len());
    let count = buf.len().min(bytes.len() - start);
    buf[..count].copy_from_slice(&bytes[start..start + count]);
    count
}

// Whether a place is at or past the end of one of these lengths.
fn is_past_any(lengths: &[u64], place: u64) -> bool
    ensures { result ≡ list_any (λ len. nat_le len place) lengths.now }
{
    lengths.iter().any(|len| *len <= place)
}

// Whether a place is in one of these ranges.
fn is_in_any(ranges: &[(u64, u64)], place: u64) -> bool
    ensures { result ≡ list_any (λ range. nat_le range.0 place && nat_lt (place - range.0) range.1) ranges.now }
{
    ranges
        .iter()
        .any(|range| range.0 <= place && place - range.0 < range.1)
}

impl MemoryArea {
    /// An area with these bytes, and nothing pending.
    pub fn new(alloc: Global, bytes: Vec<u8>) -> Self
        ensures { area_of result ≡ settled bytes.items }
    {
        MemoryArea {
            bytes,
            ranges: Vec::new(alloc),
            lengths: Vec::new(alloc),
        }
    }

    /// The same once more.
    pub fn copy(&self, alloc: Global) -> Result<Self, AllocError>
        ensures { IfOk result (λ area. area_of area ≡ area_of self.now) }
    {
        Ok(MemoryArea {
            bytes: Vec::from_slice(alloc, &self.bytes)?,
            ranges: Vec::from_slice(alloc, &self.ranges)?,
            lengths: Vec::from_slice(alloc, &self.lengths)?,
        })
    }

    /// What a read of it all gives.
    pub fn bytes(&self) -> &[u8]
        ensures { result.now ≡ (area_of self.now).bytes }
    {
        &self.bytes
    }

    /// Reads from a place on, into the front of the buffer.
    pub fn read(&self, at: u64, buf: &mut [u8]) -> usize
        ensures within { result ≤ length buf.old }
        ensures gives { Gives (drop at (area_of self.now).bytes) result buf.old buf.new }
    {
        read_from(&self.bytes, at as usize, buf)
    }

    /// Writes the bytes. Where memory is wanted nothing changes.
    pub fn write(&mut self, alloc: Global, at: u64, bytes: &[u8]) -> Result<(), AllocError>
        ensures ok { OnOk result (area_of self.new ≡ written at bytes.now (area_of self.old)) }
        ensures err { OnErr result (area_of self.new ≡ area_of self.old) }
    {
        let len = self.bytes.len() as u64;
        let new = overwrite(alloc, &self.bytes, at as usize, bytes)?;
        self.ranges.reserve(1)?;
        self.lengths.insert(0, len)?;
        self.ranges.insert(0, (at, bytes.len() as u64))?;
        self.bytes = new;
        Ok(())
    }

    /// Cuts the area to a length. Where memory is wanted nothing changes.
    pub fn cut(&mut self, alloc: Global, len: u64) -> Result<(), AllocError>
        ensures ok { OnOk result (area_of self.new ≡ cut len (area_of self.old)) }
        ensures err { OnErr result (area_of self.new ≡ area_of self.old) }
    {
        let old_len = self.bytes.len() as u64;
        let new = resize(alloc, &self.bytes, len as usize)?;
        self.lengths.insert(0, old_len)?;
        self.bytes = new;
        Ok(())
    }

    /// Nothing is pending any more.
    pub fn sync(&mut self)
        ensures { area_of self.new ≡ synced (area_of self.old) }
    {
        self.ranges.clear();
        self.lengths.clear();
    }

    // Whether a crash may leave any byte at this place.
    fn is_pending(&self, place: u64) -> bool
        ensures { result ≡ is_pending (area_of self.now) place }
    {
        self.bytes.len() as u64 <= place
            || is_past_any(&self.lengths, place)
            || is_in_any(&self.ranges, place)
    }

    /// Its bytes, with this one in each place that is pending.
    pub fn torn(&self, alloc: Global, byte: u8) -> Result<Vec<u8>, AllocError>
        ensures { IfOk result (λ v. v.items ≡ torn byte (area_of self.now)) }
    {
        let mut torn = Vec::new(alloc);
        for (i, read) in self.bytes.iter().enumerate() {
            torn.push(if self.is_pending(i as u64) {
                byte
            } else {
                *read
            })?;
        }
        Ok(torn)
    }
}
