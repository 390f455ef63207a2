ghost use Rattle.std.specs.Prelude.{◌≡◌, ℕ, List, ◌-◌, ◌^◌, min, ◌≤◌, ◌<◌, true, false, [], ◌∷◌, length, Some, OnSome, OnOk, OnErr, IfOk, IfSome, option_map, take};
ghost use Rattle.outside.specs.declared.device.Address.{Address};
ghost use Rattle.outside.specs.Counting.{counted};
ghost use Rattle.disk.specs.Acts.{WriteAt, CutTo, Sync, Now, Wrote, Cut, Synced};
ghost use Rattle.disk.specs.Areas.{area_at, changed};
ghost use Rattle.disk.specs.Disk.{contents, may_leave, written, cut};
ghost use Rattle.disk.specs.Images.{image_by_word};
ghost use Rattle.node_device.specs.Faults.{NoFewer, BeginCounts, ReceiveCounts, SendCounts, ReadCounts, StoreCounts};
ghost use Rattle.node_device.specs.Telling.{Did, OthersStay, TellsOn};
ghost use Rattle.node_device.specs.Outcomes.{Begins, Receives, Sends, Reads, Stores};
ghost use Rattle.node_device.specs.Wants.{Wants, begin_wants, receive_wants, send_wants, read_wants, store_wants};
ghost use Rattle.node_device.specs.declared.limits.TheConstants.{RECEIVE_BUFFER};
ghost use Rattle.node_device_mem.specs.MemoryDisks.{image_of, disk_of};
ghost use Rattle.node_device_mem.specs.Histories.{act_of, next_value};
ghost use Rattle.node_device_mem.specs.Devices.{SteadyStays, steady_told, no_faults, noted, noted_with, first_disk, places_of};
ghost use Rattle.node_device_mem.specs.Scripts.{Brings, next_arrival, received_after, cut_to};

use crate::history::History;
use crate::memory_disk::{Areas, MemoryDisk};
use crate::past::{Past, PastAct};
use node_device::{AreaRead, Device, Received, Shipped, Stored};
use outside::{Address, Begun};
use std::alloc::{AllocError, Global};

/// What a receive is to find.
#[derive(Drop)]
pub enum Arrival {
    Datagram { from: Address, bytes: Vec<u8> },
    /// No datagram in time.
    Quiet,
}

/// A device over memory that never fails: it tells its acts and its disk, receives what a script says, and its clock follows a
/// script. It wants memory where an act or its bytes cannot be kept.
#[derive(Drop)]
pub struct SteadyDevice {
    alloc: Global,
    // the areas as they were at first, and as they are
    first: MemoryDisk,
    disk: MemoryDisk,
    history: History,
    arrivals: Vec<Arrival>,
    // how many of these were received
    received: usize,
    begun: bool,
    // how often a call has answered want of memory
    wants: u64,
}

impl SteadyDevice {
    /// A device with these areas. After the last arrival all is quiet, and after the last clock value it comes again, or 0 where
    /// there is none.
    pub fn new(
        alloc: Global,
        disk: MemoryDisk,
        arrivals: Vec<Arrival>,
        clock: Vec<u64>,
    ) -> Result<Self, AllocError>
        ensures told { IfOk result (λ device. steady_told device ≡ Some (record { acts = []; disk = disk_of disk })) }
        ensures first { IfOk result (λ device. first_disk device ≡ disk_of disk) }
        ensures begun { IfOk result (λ device. device.begun ≡ false) }
        ensures arrivals { IfOk result (λ device. (device.arrivals.items ≡ arrivals.items) × (device.received ≡ 0)) }
        ensures clock { IfOk result (λ device. device.history.clock.items ≡ clock.items) }
        ensures wants { IfOk result (λ device. device.wants ≡ 0) }
    {
        Ok(SteadyDevice {
            alloc,
            first: disk.copy(alloc)?,
            disk,
            history: History::new(alloc, clock),
            arrivals,
            received: 0,
            begun: false,
            wants: 0,
        })
    }

    /// What a read of a whole area gives. A number above 2 names area 2.
    pub fn area(&self, area: u8) -> &[u8]
        ensures { IfSome (steady_told self.now) (λ told. result.now ≡ area_at (contents told.disk) area) }
    {
        self.disk.area(area)
    }

    /// The acts so far, each with the number of clock values before it.
    pub fn past(&self) -> &[Past]
        ensures { result.now ≡ self.now.history.past.items }
    {
        self.history.past()
    }

    /// How many acts there are, clock values among them. It stops at the greatest `u64`.
    pub fn acts(&self) -> u64
        ensures { IfSome (steady_told self.now) (λ told. result ≡ min (length told.acts) (2 ^ 64 - 1)) }
    {
        self.history.acts()
    }

    /// How often a call has answered want of memory. It stops at the greatest `u64`.
    pub fn wants(&self) -> u64
        ensures { result ≡ self.now.wants }
    {
        self.wants
    }

    // Counts a call that answers want of memory, and hands its answer back.
    pub(crate) fn want<T>(&mut self, answer: T) -> T
        ensures same { result ≡ answer }
        ensures counts { self.new ≡ record self.old { wants = counted self.old.wants } }
    {
        self.wants = self.wants.saturating_add(1);
        answer
    }

    // Its record.
    pub(crate) fn history(&self) -> &History
        ensures { result.now ≡ self.now.history }
    {
        &self.history
    }

    /// What a crash may leave after so many acts, by the word modulo 4: 0 what stood at the last syncs, 1 what a read gives, 2 and 3
    /// the present lengths with `FF` or `00` in each place that is pending. A write or cut that failed counts as done.
    pub fn image(&self, acts: u64, word: u32) -> Result<Areas, AllocError>
        ensures image { IfOk result (λ areas. IfSome (steady_told self.now)
            (λ told. image_of areas ≡ image_by_word (first_disk self.now) (take acts told.acts) word)) }
        ensures left { IfOk result (λ areas. IfSome (steady_told self.now)
            (λ told. may_leave (first_disk self.now) (take acts told.acts) (image_of areas) ≡ true)) }
    {
        let trail = self.history.trail(self.alloc, &self.first, acts)?;
        trail.image(self.alloc, word % 4)
    }

    // Puts an act into the record, and leaves the areas.
    pub(crate) fn note(&mut self, act: PastAct) -> Result<(), AllocError>
        ensures ok { OnOk result (steady_told self.new ≡ noted (act_of act) (steady_told self.old)) }
        ensures err { OnErr result (steady_told self.new ≡ steady_told self.old) }
        ensures begun { self.new.begun ≡ self.old.begun }
        ensures wants { self.new.wants ≡ self.old.wants }
        ensures stays { SteadyStays self.old self.new }
        ensures places { places_of self.new ≡ places_of self.old }
    {
        self.history.note(act)
    }

    // Writes into an area, and puts this act into the record. Where memory is wanted neither is done.
    pub(crate) fn write_as(
        &mut self,
        area: u8,
        at: u64,
        bytes: &[u8],
        act: PastAct,
    ) -> Result<(), AllocError>
        ensures ok { OnOk result (steady_told self.new
            ≡ noted_with (act_of act) (λ disk. changed disk area (written at bytes.now)) (steady_told self.old)) }
        ensures err { OnErr result (steady_told self.new ≡ steady_told self.old) }
        ensures begun { self.new.begun ≡ self.old.begun }
        ensures wants { self.new.wants ≡ self.old.wants }
        ensures stays { SteadyStays self.old self.new }
        ensures places { places_of self.new ≡ places_of self.old }
    {
        self.history.reserve()?;
        self.disk.write(self.alloc, area, at, bytes)?;
        // there is room for it
        self.history.note(act)
    }

    // Cuts an area to a length, and puts this act into the record. Where memory is wanted neither is done.
    pub(crate) fn cut_as(&mut self, area: u8, len: u64, act: PastAct) -> Result<(), AllocError>
        ensures ok { OnOk result (steady_told self.new
            ≡ noted_with (act_of act) (λ disk. changed disk area (cut len)) (steady_told self.old)) }
        ensures err { OnErr result (steady_told self.new ≡ steady_told self.old) }
        ensures begun { self.new.begun ≡ self.old.begun }
        ensures wants { self.new.wants ≡ self.old.wants }
        ensures stays { SteadyStays self.old self.new }
        ensures places { places_of self.new ≡ places_of self.old }
    {
        self.history.reserve()?;
        self.disk.cut(self.alloc, area, len)?;
        // there is room for it
        self.history.note(act)
    }

    // A copy of the datagram that arrives next, if one does, cut to so many bytes.
    fn next_datagram(&self, room: usize) -> Result<Option<(Address, Vec<u8>)>, AllocError>
        ensures { IfOk result (λ next. option_map {U = Address × List ℕ} (λ datagram. (datagram.0, datagram.1.items)) next
            ≡ cut_to room (next_arrival self.now.arrivals.items self.now.received)) }
    {
        match self.arrivals.get(self.received) {
            Some(Arrival::Datagram { from, bytes }) => {
                let front = &bytes[..bytes.len().min(room)];
                Ok(Some((*from, self.copy_of(front)?)))
            }
            Some(Arrival::Quiet) => Ok(None),
            None => Ok(None),
        }
    }

    // A copy of these bytes, to be kept.
    pub(crate) fn copy_of(&self, bytes: &[u8]) -> Result<Vec<u8>, AllocError>
        ensures { IfOk result (λ copy. copy.items ≡ bytes.now) }
    {
        Vec::from_slice(self.alloc, bytes)
    }
}

impl Device for SteadyDevice {
    ghost told = { λ device. steady_told device };

    ghost begun = { λ device. device.begun };

    ghost faults = { λ _. no_faults };

    ghost wants = { λ device. device.wants };

    fn begin(&mut self, at: Address, dir: &str) -> Begun
        ensures outcome { Begins self.old.begun self.new.begun (steady_told self.old) (steady_told self.new) at dir.now result }
        ensures causes { BeginCounts no_faults no_faults result }
        ensures counts { NoFewer no_faults no_faults }
        ensures wants { Wants (begin_wants result) self.old.wants self.new.wants }
        ensures stays { SteadyStays self.old self.new }
        ensures places { places_of self.new ≡ places_of self.old }
    {
        let Ok(copy) = self.copy_of(dir.as_bytes()) else {
            return self.want(Begun::Memory);
        };
        if self.note(PastAct::Began(at, copy)).is_err() {
            return self.want(Begun::Memory);
        }
        self.begun = true;
        Begun::Ready
    }

    fn now(&mut self) -> u64
        requires { self.old.begun ≡ true }
        ensures outcome { OnSome (steady_told self.new) (Did (steady_told self.old) (steady_told self.new) (Now result ∷ [])) }
        ensures tells { TellsOn 1 (steady_told self.old) (steady_told self.new) }
        ensures begun { self.new.begun ≡ true }
        ensures causes { no_faults ≡ no_faults }
        ensures wants { self.new.wants ≡ self.old.wants }
        ensures value { result ≡ next_value self.old.history }
        ensures stays { SteadyStays self.old self.new }
        ensures places { places_of self.new ≡ record (places_of self.old) { clock = counted (places_of self.old).clock } }
    {
        self.history.now()
    }

    fn receive(&mut self, wait_ms: u32, buf: &mut [u8]) -> Received
        requires begun { self.old.begun ≡ true }
        requires room { RECEIVE_BUFFER ≤ length buf.old }
        ensures outcome { Receives wait_ms buf.new (steady_told self.old) (steady_told self.new) result }
        ensures begun { self.new.begun ≡ true }
        ensures causes { ReceiveCounts no_faults no_faults result }
        ensures counts { NoFewer no_faults no_faults }
        ensures wants { Wants (receive_wants result) self.old.wants self.new.wants }
        ensures arrives { Brings (next_arrival self.old.arrivals.items self.old.received) buf.new result }
        ensures stays { SteadyStays self.old self.new }
        ensures places { places_of self.new ≡ record (places_of self.old) { received = received_after self.old.received result } }
    {
        if self.history.reserve().is_err() {
            return self.want(Received::Memory);
        }
        let Ok(next) = self.next_datagram(buf.len()) else {
            return self.want(Received::Memory);
        };
        let Some((from, bytes)) = next else {
            // there is room for it
            if self.history.note(PastAct::Quiet(wait_ms)).is_err() {
                return self.want(Received::Memory);
            }
            self.received = self.received.saturating_add(1);
            return Received::Quiet;
        };
        let len = bytes.len();
        buf[..len].copy_from_slice(&bytes);
        // there is room for it
        if self
            .history
            .note(PastAct::Took(wait_ms, from, bytes))
            .is_err()
        {
            return self.want(Received::Memory);
        }
        self.received = self.received.saturating_add(1);
        Received::Datagram { from, len }
    }

    fn send(&mut self, to: Address, bytes: &[u8]) -> Shipped
        requires { self.old.begun ≡ true }
        ensures outcome { Sends to bytes.now (steady_told self.old) (steady_told self.new) result }
        ensures begun { self.new.begun ≡ true }
        ensures causes { SendCounts no_faults no_faults result }
        ensures counts { NoFewer no_faults no_faults }
        ensures wants { Wants (send_wants result) self.old.wants self.new.wants }
        ensures stays { SteadyStays self.old self.new }
        ensures places { places_of self.new ≡ places_of self.old }
    {
        let Ok(copy) = self.copy_of(bytes) else {
            return self.want(Shipped::Memory);
        };
        if self.note(PastAct::Sent(to, copy)).is_err() {
            return self.want(Shipped::Memory);
        }
        Shipped::Sent
    }

    fn read_at(&mut self, area: u8, at: u64, buf: &mut [u8]) -> AreaRead
        requires begun { self.old.begun ≡ true }
        requires area { area < 3 }
        ensures outcome { Reads area at (steady_told self.old) (steady_told self.new) buf.old buf.new result }
        ensures begun { self.new.begun ≡ true }
        ensures causes { ReadCounts no_faults no_faults result }
        ensures counts { NoFewer no_faults no_faults }
        ensures wants { Wants (read_wants result) self.old.wants self.new.wants }
        ensures stays { SteadyStays self.old self.new }
        ensures places { places_of self.new ≡ places_of self.old }
    {
        AreaRead::Got(self.disk.read(area, at, buf))
    }

    fn write_at(&mut self, area: u8, at: u64, bytes: &[u8]) -> Stored
        requires begun { self.old.begun ≡ true }
        requires area { area < 3 }
        ensures outcome { Stores (WriteAt area at bytes.now) (Wrote area at bytes.now) (steady_told self.old) (steady_told self.new)
            result }
        ensures others { OthersStay area (steady_told self.old) (steady_told self.new) }
        ensures begun { self.new.begun ≡ true }
        ensures causes { StoreCounts no_faults no_faults result }
        ensures counts { NoFewer no_faults no_faults }
        ensures wants { Wants (store_wants result) self.old.wants self.new.wants }
        ensures stays { SteadyStays self.old self.new }
        ensures places { places_of self.new ≡ places_of self.old }
    {
        let Ok(copy) = self.copy_of(bytes) else {
            return self.want(Stored::Memory);
        };
        let act = PastAct::Wrote(area, at, copy);
        if self.write_as(area, at, bytes, act).is_err() {
            return self.want(Stored::Memory);
        }
        Stored::Done
    }

    fn cut(&mut self, area: u8, len: u64) -> Stored
        requires begun { self.old.begun ≡ true }
        requires area { area < 3 }
        ensures outcome { Stores (CutTo area len) (Cut area len) (steady_told self.old) (steady_told self.new) result }
        ensures others { OthersStay area (steady_told self.old) (steady_told self.new) }
        ensures begun { self.new.begun ≡ true }
        ensures causes { StoreCounts no_faults no_faults result }
        ensures counts { NoFewer no_faults no_faults }
        ensures wants { Wants (store_wants result) self.old.wants self.new.wants }
        ensures stays { SteadyStays self.old self.new }
        ensures places { places_of self.new ≡ places_of self.old }
    {
        if self.cut_as(area, len, PastAct::Cut(area, len)).is_err() {
            return self.want(Stored::Memory);
        }
        Stored::Done
    }

    fn sync(&mut self, area: u8) -> Stored
        requires begun { self.old.begun ≡ true }
        requires area { area < 3 }
        ensures outcome { Stores (Sync area) (Synced area) (steady_told self.old) (steady_told self.new) result }
        ensures others { OthersStay area (steady_told self.old) (steady_told self.new) }
        ensures begun { self.new.begun ≡ true }
        ensures causes { StoreCounts no_faults no_faults result }
        ensures counts { NoFewer no_faults no_faults }
        ensures wants { Wants (store_wants result) self.old.wants self.new.wants }
        ensures stays { SteadyStays self.old self.new }
        ensures places { places_of self.new ≡ places_of self.old }
    {
        if self.note(PastAct::Synced(area)).is_err() {
            return self.want(Stored::Memory);
        }
        self.disk.sync(area);
        Stored::Done
    }
}
