ghost use Rattle.std.specs.Prelude.{◌≡◌, ◌≤◌, ◌+◌, ◌++◌, length, take, drop, OnOk, OnErr, IfOk};
ghost use Rattle.std.specs.List.{list_any};
ghost use Rattle.disk.specs.Disk.{overwritten, resized, written, cut, synced, settled, is_pending};
ghost use Rattle.disk.specs.Images.{torn};
ghost use Rattle.store_acts.specs.PendingAreas.{area_of, reaches, stood_of};

use std::alloc::{AllocError, Global};

/// What takes a pending act back: the bytes that stood from a place on and no longer do, and the length from before it.
#[derive(Drop)]
struct Undo {
    len: u64,
    at: u64,
    over: Vec<u8>,
    // how many bytes it wrote from the place on, if it was a write
    wrote: Option<u64>,
}

impl Undo {
    // Whether a crash may leave any byte at this place because of the act.
    fn reaches(&self, place: u64) -> bool
        ensures { result ≡ reaches self.now place }
    {
        if self.len <= place {
            return true;
        }
        match self.wrote {
            Some(count) => self.at <= place && place - self.at < count,
            None => false,
        }
    }
}

// Whether a crash may leave any byte at this place because of one of the acts.
fn any_reaches(undos: &[Undo], place: u64) -> bool
    ensures { result ≡ list_any (λ undo. reaches undo place) undos.now }
{
    undos.iter().any(|undo| undo.reaches(place))
}

/// An area in memory with what is pending on it, by which each act since the last sync can be taken back.
#[derive(Drop)]
pub struct PendingArea {
    // what a read gives
    bytes: Vec<u8>,
    // what takes back the acts since the last sync, in their order
    undos: Vec<Undo>,
}

// Puts bytes into a row, and those that stood there in their place.
fn exchange(row: &mut [u8], at: usize, bytes: &mut [u8])
    requires within { at + length bytes.old ≤ length row.old }
    ensures row { row.new ≡ take at row.old ++ (bytes.old ++ drop (at + length bytes.old) row.old) }
    ensures bytes { bytes.new ≡ take (length bytes.old) (drop at row.old) }
    ensures within { at + length bytes.old ≤ length row.old }
    ensures len { length row.new ≡ length row.old }
    ensures count { length bytes.new ≡ length bytes.old }
{
    row[at..at + bytes.len()].swap_with_slice(bytes);
}

// Writes bytes over others, with a gap before them filled with 0, and gives those in whose place they stand.
fn overwrite(old: &mut Vec<u8>, at: usize, mut bytes: Vec<u8>) -> Result<Vec<u8>, AllocError>
    ensures new { OnOk result (old.new.items ≡ overwritten old.old.items at bytes.items) }
    ensures over { IfOk result (λ over. over.items ≡ take (length bytes.items) (drop at old.old.items)) }
    ensures err { OnErr result (old.new.items ≡ old.old.items) }
{
    if bytes.is_empty() {
        return Ok(bytes);
    }
    let len = old.len();
    let end = at.saturating_add(bytes.len());
    if len < end {
        old.resize(end, 0)?;
    }
    exchange(old, at, &mut bytes);
    bytes.truncate(len.saturating_sub(at));
    Ok(bytes)
}

// Cuts bytes to a length, or fills them up to it with 0, and gives those that were cut off.
fn resize(alloc: Global, old: &mut Vec<u8>, len: usize) -> Result<Vec<u8>, AllocError>
    ensures new { OnOk result (old.new.items ≡ resized len old.old.items) }
    ensures over { IfOk result (λ over. over.items ≡ drop len old.old.items) }
    ensures err { OnErr result (old.new.items ≡ old.old.items) }
{
    if len < old.len() {
        return old.split_off(len);
    }
    old.resize(len, 0)?;
    Ok(Vec::new(alloc))
}

impl PendingArea {
    /// An area with these bytes, and nothing pending.
    pub fn new(alloc: Global, bytes: Vec<u8>) -> Self
        ensures area { area_of result ≡ settled bytes.items }
        ensures stood { stood_of result ≡ bytes.items }
    {
        PendingArea {
            bytes,
            undos: Vec::new(alloc),
        }
    }

    /// What a read of it all gives.
    pub fn bytes(&self) -> &[u8]
        ensures { result.now ≡ (area_of self.now).bytes }
    {
        &self.bytes
    }

    /// Writes the bytes. Where memory is wanted nothing changes.
    pub fn write(&mut self, at: u64, bytes: Vec<u8>) -> Result<(), AllocError>
        ensures ok { OnOk result (area_of self.new ≡ written at bytes.items (area_of self.old)) }
        ensures err { OnErr result (area_of self.new ≡ area_of self.old) }
        ensures stood { stood_of self.new ≡ stood_of self.old }
    {
        self.undos.reserve(1)?;
        let len = self.bytes.len() as u64;
        let wrote = Some(bytes.len() as u64);
        let over = overwrite(&mut self.bytes, at as usize, bytes)?;
        let undo = Undo {
            len,
            at,
            over,
            wrote,
        };
        self.undos.push(undo)?;
        Ok(())
    }

    /// Cuts the area to a length, or fills it up to it with 0. Where memory is wanted nothing changes.
    pub fn cut(&mut self, alloc: Global, len: u64) -> Result<(), AllocError>
        ensures ok { OnOk result (area_of self.new ≡ cut len (area_of self.old)) }
        ensures err { OnErr result (area_of self.new ≡ area_of self.old) }
        ensures stood { stood_of self.new ≡ stood_of self.old }
    {
        self.undos.reserve(1)?;
        let old_len = self.bytes.len() as u64;
        let over = resize(alloc, &mut self.bytes, len as usize)?;
        let undo = Undo {
            len: old_len,
            at: len,
            over,
            wrote: None,
        };
        self.undos.push(undo)?;
        Ok(())
    }

    /// Nothing is pending any more.
    pub fn sync(&mut self)
        ensures area { area_of self.new ≡ synced (area_of self.old) }
        ensures stood { stood_of self.new ≡ (area_of self.old).bytes }
    {
        self.undos.clear();
    }

    /// What stood on it at its last sync.
    pub fn stood(self) -> Result<Vec<u8>, AllocError>
        ensures { IfOk result (λ bytes. bytes.items ≡ stood_of self) }
    {
        let PendingArea {
            mut bytes,
            mut undos,
        } = self;
        while let Some(undo) = undos.pop() {
            overwrite(&mut bytes, undo.at as usize, undo.over)?;
            bytes.resize(undo.len as usize, 0)?;
        }
        Ok(bytes)
    }

    /// What a read gave.
    pub fn read(self) -> Vec<u8>
        ensures { result.items ≡ (area_of self).bytes }
    {
        self.bytes
    }

    // Whether a crash may leave any byte at this place.
    fn is_pending(&self, place: u64) -> bool
        ensures { result ≡ is_pending (area_of self.now) place }
    {
        if self.bytes.len() as u64 <= place {
            return true;
        }
        any_reaches(&self.undos, place)
    }

    /// The same, with this byte in each place that is pending.
    pub fn torn(&self, alloc: Global, byte: u8) -> Result<Vec<u8>, AllocError>
        ensures { IfOk result (λ v. v.items ≡ torn byte (area_of self.now)) }
    {
        let mut torn = Vec::with_capacity(alloc, self.bytes.len())?;
        for (i, read) in self.bytes.iter().enumerate() {
            torn.push(if self.is_pending(i as u64) {
                byte
            } else {
                *read
            })?;
        }
        Ok(torn)
    }
}
