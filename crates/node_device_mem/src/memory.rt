ghost use Rattle.std.specs.Prelude.{◌≡◌, ◌-◌, ◌^◌, ◌<◌, ◌≤◌, min, length, true, false, [], ◌∷◌, Some, None, IfOk, IfSome, OnSome, take};
ghost use Rattle.outside.specs.Counting.{counted};
ghost use Rattle.disk.specs.Acts.{WriteAt, CutTo, Sync, Now, Wrote, Cut, Synced};
ghost use Rattle.disk.specs.Areas.{area_at};
ghost use Rattle.disk.specs.Disk.{contents, may_leave};
ghost use Rattle.disk.specs.Images.{image_by_word};
ghost use Rattle.node_device.specs.Faults.{NoFewer, BeginCounts, ReceiveCounts, SendCounts, ReadCounts, StoreCounts};
ghost use Rattle.node_device.specs.Telling.{Did, OthersStay, TellsOn};
ghost use Rattle.node_device.specs.Outcomes.{Begins, Stores, Reads, Sends, Receives};
ghost use Rattle.node_device.specs.Wants.{Wants, begin_wants, receive_wants, send_wants, read_wants, store_wants};
ghost use Rattle.node_device.specs.declared.limits.TheConstants.{RECEIVE_BUFFER};
ghost use Rattle.node_device_mem.specs.MemoryDisks.{image_of, disk_of};
ghost use Rattle.node_device_mem.specs.Histories.{next_value};
ghost use Rattle.node_device_mem.specs.Devices.{no_faults, places_of};
ghost use Rattle.node_device_mem.specs.Scripts.{called, next_arrival, received_after, Brings, BeginsBy, ReceivesBy, SendsBy, ReadsBy, StoresBy, StoresExactly};
ghost use Rattle.node_device_mem.specs.MemoryDevices.{Stays, memory_told, memory_begun, memory_first, faults_of, is_due_now};

use crate::memory_disk::{Areas, MemoryDisk};
use crate::past::{Past, PastAct};
use crate::script::Script;
use crate::steady::{Arrival, SteadyDevice};
use node_device::{AreaRead, Device, Received, Shipped, Stored};
use outside::{Address, Begun};
use std::alloc::{AllocError, Global};

/// How often calls of each kind have failed. Each stops at the greatest `u64`.
#[derive(Clone, Copy, Debug, PartialEq, Eq)]
pub struct Counts {
    pub begin: u64,
    pub receive: u64,
    pub store: u64,
    pub send: u64,
}

/// A device over memory whose calls fail by a script, and which is steady else. A write or cut that fails does to its area what it
/// is recorded to have done, so that the areas are always as the record says. Any other call that fails stands in the record alone.
#[derive(Drop)]
pub struct MemoryDevice {
    steady: SteadyDevice,
    script: Script,
    counts: Counts,
}

impl MemoryDevice {
    /// A device with these areas, arrivals and clock values, as a steady one has them. Every call but `now` is counted, from 1, and
    /// those of these numbers fail.
    pub fn new(
        alloc: Global,
        disk: MemoryDisk,
        arrivals: Vec<Arrival>,
        clock: Vec<u64>,
        failing: Vec<u64>,
    ) -> Result<Self, AllocError>
        ensures told { IfOk result (λ device. memory_told device ≡ Some (record { acts = []; disk = disk_of disk })) }
        ensures first { IfOk result (λ device. memory_first device ≡ disk_of disk) }
        ensures begun { IfOk result (λ device. memory_begun device ≡ false) }
        ensures arrivals { IfOk result (λ device. (device.steady.arrivals.items ≡ arrivals.items) × (device.steady.received ≡ 0)) }
        ensures clock { IfOk result (λ device. device.steady.history.clock.items ≡ clock.items) }
        ensures faults { IfOk result (λ device. faults_of device ≡ no_faults) }
        ensures wants { IfOk result (λ device. device.steady.wants ≡ 0) }
        ensures script { IfOk result (λ device. device.script ≡ record { failing = failing; last = None; calls = 0 }) }
    {
        Ok(MemoryDevice {
            steady: SteadyDevice::new(alloc, disk, arrivals, clock)?,
            script: Script::new(failing),
            counts: Counts {
                begin: 0,
                receive: 0,
                store: 0,
                send: 0,
            },
        })
    }

    /// Lets each call after so many acts, clock values counted too, fail.
    pub fn stop_after(&mut self, acts: u64)
        ensures { self.new ≡ record self.old { script = record self.old.script { last = Some acts } } }
    {
        self.script.stop_after(acts);
    }

    /// What a read of a whole area gives. A number above 2 names area 2.
    pub fn area(&self, area: u8) -> &[u8]
        ensures { IfSome (memory_told self.now) (λ told. result.now ≡ area_at (contents told.disk) area) }
    {
        self.steady.area(area)
    }

    /// The acts so far, each with the number of clock values before it.
    pub fn past(&self) -> &[Past]
        ensures { result.now ≡ self.now.steady.history.past.items }
    {
        self.steady.past()
    }

    /// How many acts there are, clock values among them. It stops at the greatest `u64`.
    pub fn acts(&self) -> u64
        ensures { IfSome (memory_told self.now) (λ told. result ≡ min (length told.acts) (2 ^ 64 - 1)) }
    {
        self.steady.acts()
    }

    /// How many calls there were, but of `now`. It stops at the greatest `u64`.
    pub fn calls(&self) -> u64
        ensures { result ≡ self.now.script.calls }
    {
        self.script.calls()
    }

    /// How often calls have failed.
    pub fn counts(&self) -> Counts
        ensures { result ≡ self.now.counts }
    {
        self.counts
    }

    /// How often a call has answered want of memory. It stops at the greatest `u64`.
    pub fn wants(&self) -> u64
        ensures { result ≡ self.now.steady.wants }
    {
        self.steady.wants()
    }

    /// What a crash may leave after so many acts, by the word, as of a steady device.
    pub fn image(&self, acts: u64, word: u32) -> Result<Areas, AllocError>
        ensures image { IfOk result (λ areas. IfSome (memory_told self.now)
            (λ told. image_of areas ≡ image_by_word (memory_first self.now) (take acts told.acts) word)) }
        ensures left { IfOk result (λ areas. IfSome (memory_told self.now)
            (λ told. may_leave (memory_first self.now) (take acts told.acts) (image_of areas) ≡ true)) }
    {
        self.steady.image(acts, word)
    }

    // Whether the call that begins now is to fail.
    fn is_due(&mut self) -> bool
        ensures due { result ≡ is_due_now self.old }
        ensures called { self.new ≡ record self.old { script = called self.old.script } }
    {
        self.script.is_due(self.steady.history())
    }
}

impl Device for MemoryDevice {
    ghost told = { λ device. memory_told device };

    ghost begun = { λ device. memory_begun device };

    ghost faults = { λ device. faults_of device };

    ghost wants = { λ device. device.steady.wants };

    fn begin(&mut self, at: Address, dir: &str) -> Begun
        ensures outcome { Begins (memory_begun self.old) (memory_begun self.new)
            (memory_told self.old) (memory_told self.new) at dir.now result }
        ensures causes { BeginCounts (faults_of self.old) (faults_of self.new) result }
        ensures counts { NoFewer (faults_of self.old) (faults_of self.new) }
        ensures wants { Wants (begin_wants result) self.old.steady.wants self.new.steady.wants }
        ensures scripted { BeginsBy (is_due_now self.old) result }
        ensures stays { Stays self.old self.new }
        ensures places { places_of self.new.steady ≡ places_of self.old.steady }
        ensures calls { self.new.script.calls ≡ counted self.old.script.calls }
    {
        if !self.is_due() {
            return self.steady.begin(at, dir);
        }
        let Ok(copy) = self.steady.copy_of(dir.as_bytes()) else {
            return self.steady.want(Begun::Memory);
        };
        if self.steady.note(PastAct::BeginFailed(at, copy)).is_err() {
            return self.steady.want(Begun::Memory);
        }
        self.counts.begin = self.counts.begin.saturating_add(1);
        Begun::Failed
    }

    fn now(&mut self) -> u64
        requires { memory_begun self.old ≡ true }
        ensures outcome { OnSome (memory_told self.new) (Did (memory_told self.old) (memory_told self.new) (Now result ∷ [])) }
        ensures tells { TellsOn 1 (memory_told self.old) (memory_told self.new) }
        ensures begun { memory_begun self.new ≡ true }
        ensures causes { faults_of self.new ≡ faults_of self.old }
        ensures wants { self.new.steady.wants ≡ self.old.steady.wants }
        ensures value { result ≡ next_value self.old.steady.history }
        ensures stays { Stays self.old self.new }
        ensures places { places_of self.new.steady
            ≡ record (places_of self.old.steady) { clock = counted (places_of self.old.steady).clock } }
        ensures calls { self.new.script.calls ≡ self.old.script.calls }
    {
        self.steady.now()
    }

    fn receive(&mut self, wait_ms: u32, buf: &mut [u8]) -> Received
        requires begun { memory_begun self.old ≡ true }
        requires room { RECEIVE_BUFFER ≤ length buf.old }
        ensures outcome { Receives wait_ms buf.new (memory_told self.old) (memory_told self.new) result }
        ensures begun { memory_begun self.new ≡ true }
        ensures causes { ReceiveCounts (faults_of self.old) (faults_of self.new) result }
        ensures counts { NoFewer (faults_of self.old) (faults_of self.new) }
        ensures wants { Wants (receive_wants result) self.old.steady.wants self.new.steady.wants }
        ensures scripted { ReceivesBy (is_due_now self.old) result }
        ensures arrives { Brings (next_arrival self.old.steady.arrivals.items self.old.steady.received) buf.new result }
        ensures stays { Stays self.old self.new }
        ensures places { places_of self.new.steady
            ≡ record (places_of self.old.steady) { received = received_after self.old.steady.received result } }
        ensures calls { self.new.script.calls ≡ counted self.old.script.calls }
    {
        if !self.is_due() {
            return self.steady.receive(wait_ms, buf);
        }
        if self.steady.note(PastAct::ReceiveFailed(wait_ms)).is_err() {
            return self.steady.want(Received::Memory);
        }
        self.counts.receive = self.counts.receive.saturating_add(1);
        Received::Failed
    }

    fn send(&mut self, to: Address, bytes: &[u8]) -> Shipped
        requires { memory_begun self.old ≡ true }
        ensures outcome { Sends to bytes.now (memory_told self.old) (memory_told self.new) result }
        ensures begun { memory_begun self.new ≡ true }
        ensures causes { SendCounts (faults_of self.old) (faults_of self.new) result }
        ensures counts { NoFewer (faults_of self.old) (faults_of self.new) }
        ensures wants { Wants (send_wants result) self.old.steady.wants self.new.steady.wants }
        ensures scripted { SendsBy (is_due_now self.old) result }
        ensures stays { Stays self.old self.new }
        ensures places { places_of self.new.steady ≡ places_of self.old.steady }
        ensures calls { self.new.script.calls ≡ counted self.old.script.calls }
    {
        if !self.is_due() {
            return self.steady.send(to, bytes);
        }
        let Ok(copy) = self.steady.copy_of(bytes) else {
            return self.steady.want(Shipped::Memory);
        };
        if self.steady.note(PastAct::SendFailed(to, copy)).is_err() {
            return self.steady.want(Shipped::Memory);
        }
        self.counts.send = self.counts.send.saturating_add(1);
        Shipped::Failed
    }

    fn read_at(&mut self, area: u8, at: u64, buf: &mut [u8]) -> AreaRead
        requires begun { memory_begun self.old ≡ true }
        requires area { area < 3 }
        ensures outcome { Reads area at (memory_told self.old) (memory_told self.new) buf.old buf.new result }
        ensures begun { memory_begun self.new ≡ true }
        ensures causes { ReadCounts (faults_of self.old) (faults_of self.new) result }
        ensures counts { NoFewer (faults_of self.old) (faults_of self.new) }
        ensures wants { Wants (read_wants result) self.old.steady.wants self.new.steady.wants }
        ensures scripted { ReadsBy (is_due_now self.old) result }
        ensures stays { Stays self.old self.new }
        ensures places { places_of self.new.steady ≡ places_of self.old.steady }
        ensures calls { self.new.script.calls ≡ counted self.old.script.calls }
    {
        if !self.is_due() {
            return self.steady.read_at(area, at, buf);
        }
        let act = PastAct::ReadFailed(area, at, buf.len() as u64);
        if self.steady.note(act).is_err() {
            return self.steady.want(AreaRead::Memory);
        }
        self.counts.store = self.counts.store.saturating_add(1);
        AreaRead::Failed
    }

    fn write_at(&mut self, area: u8, at: u64, bytes: &[u8]) -> Stored
        requires begun { memory_begun self.old ≡ true }
        requires area { area < 3 }
        ensures outcome { Stores (WriteAt area at bytes.now) (Wrote area at bytes.now)
            (memory_told self.old) (memory_told self.new) result }
        ensures exact { StoresExactly (WriteAt area at bytes.now) (Wrote area at bytes.now)
            (memory_told self.old) (memory_told self.new) result }
        ensures others { OthersStay area (memory_told self.old) (memory_told self.new) }
        ensures begun { memory_begun self.new ≡ true }
        ensures causes { StoreCounts (faults_of self.old) (faults_of self.new) result }
        ensures counts { NoFewer (faults_of self.old) (faults_of self.new) }
        ensures wants { Wants (store_wants result) self.old.steady.wants self.new.steady.wants }
        ensures scripted { StoresBy (is_due_now self.old) result }
        ensures stays { Stays self.old self.new }
        ensures places { places_of self.new.steady ≡ places_of self.old.steady }
        ensures calls { self.new.script.calls ≡ counted self.old.script.calls }
    {
        if !self.is_due() {
            return self.steady.write_at(area, at, bytes);
        }
        let Ok(copy) = self.steady.copy_of(bytes) else {
            return self.steady.want(Stored::Memory);
        };
        let act = PastAct::WriteFailed(area, at, copy);
        if self.steady.write_as(area, at, bytes, act).is_err() {
            return self.steady.want(Stored::Memory);
        }
        self.counts.store = self.counts.store.saturating_add(1);
        Stored::Failed
    }

    fn cut(&mut self, area: u8, len: u64) -> Stored
        requires begun { memory_begun self.old ≡ true }
        requires area { area < 3 }
        ensures outcome { Stores (CutTo area len) (Cut area len) (memory_told self.old) (memory_told self.new) result }
        ensures exact { StoresExactly (CutTo area len) (Cut area len) (memory_told self.old) (memory_told self.new) result }
        ensures others { OthersStay area (memory_told self.old) (memory_told self.new) }
        ensures begun { memory_begun self.new ≡ true }
        ensures causes { StoreCounts (faults_of self.old) (faults_of self.new) result }
        ensures counts { NoFewer (faults_of self.old) (faults_of self.new) }
        ensures wants { Wants (store_wants result) self.old.steady.wants self.new.steady.wants }
        ensures scripted { StoresBy (is_due_now self.old) result }
        ensures stays { Stays self.old self.new }
        ensures places { places_of self.new.steady ≡ places_of self.old.steady }
        ensures calls { self.new.script.calls ≡ counted self.old.script.calls }
    {
        if !self.is_due() {
            return self.steady.cut(area, len);
        }
        let act = PastAct::CutFailed(area, len);
        if self.steady.cut_as(area, len, act).is_err() {
            return self.steady.want(Stored::Memory);
        }
        self.counts.store = self.counts.store.saturating_add(1);
        Stored::Failed
    }

    fn sync(&mut self, area: u8) -> Stored
        requires begun { memory_begun self.old ≡ true }
        requires area { area < 3 }
        ensures outcome { Stores (Sync area) (Synced area) (memory_told self.old) (memory_told self.new) result }
        ensures exact { StoresExactly (Sync area) (Synced area) (memory_told self.old) (memory_told self.new) result }
        ensures others { OthersStay area (memory_told self.old) (memory_told self.new) }
        ensures begun { memory_begun self.new ≡ true }
        ensures causes { StoreCounts (faults_of self.old) (faults_of self.new) result }
        ensures counts { NoFewer (faults_of self.old) (faults_of self.new) }
        ensures wants { Wants (store_wants result) self.old.steady.wants self.new.steady.wants }
        ensures scripted { StoresBy (is_due_now self.old) result }
        ensures stays { Stays self.old self.new }
        ensures places { places_of self.new.steady ≡ places_of self.old.steady }
        ensures calls { self.new.script.calls ≡ counted self.old.script.calls }
    {
        if !self.is_due() {
            return self.steady.sync(area);
        }
        if self.steady.note(PastAct::SyncFailed(area)).is_err() {
            return self.steady.want(Stored::Memory);
        }
        self.counts.store = self.counts.store.saturating_add(1);
        Stored::Failed
    }
}
