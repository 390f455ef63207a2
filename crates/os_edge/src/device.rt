ghost use Rattle.std.specs.Prelude.{◌≡◌, ◌<◌, ◌≤◌, true, not, [], ◌∷◌, length, is_some, OnSome};
ghost use Rattle.disk.specs.Acts.{WriteAt, CutTo, Sync, Now, Wrote, Cut, Synced};
ghost use Rattle.node_device.specs.Faults.{NoFewer, BeginCounts, ReceiveCounts, SendCounts, ReadCounts, StoreCounts};
ghost use Rattle.node_device.specs.Telling.{Did, OthersStay, TellsOn};
ghost use Rattle.node_device.specs.Outcomes.{Begins, Stores, Reads, Sends, Receives};
ghost use Rattle.node_device.specs.Wants.{Wants, begin_wants, receive_wants, send_wants, read_wants, store_wants};
ghost use Rattle.node_device.specs.declared.limits.TheConstants.{RECEIVE_BUFFER};
ghost use Rattle.os_edge.specs.RealViews.{untold, faults_of};
ghost use Rattle.os_edge.specs.Outcomes.{begin_outcome};
ghost use Rattle.os_edge.specs.Answers.{StoresOrFails};
ghost use Rattle.os_edge.specs.Leaving.{unbegun, BeginLeaves, ReceiveLeaves, SendLeaves, ReadLeaves, StoreLeaves, SyncLeaves};

use crate::areas::{AreaFiles, AreaPaths};
use crate::socket::Socket;
use crate::stopwatch::Stopwatch;
use node_device::{AreaRead, Device, Received, Shipped, Stored};
use outside::{Address, Begun};
use std::fs::File;
use std::io;
use std::marker::Model;
use std::rt::{Clock, Files, Net};

/// How often calls of each kind have failed. Each stops at the greatest `u64`.
#[derive(Clone, Copy, Debug, PartialEq, Eq)]
pub struct Counts {
    pub begin: u64,
    pub receive: u64,
    pub store: u64,
    pub send: u64,
}

// What a device that has begun has open.
#[derive(Drop)]
struct Opened {
    socket: Socket,
    areas: AreaFiles,
    stopwatch: Stopwatch,
}

impl Opened {
    fn open<R: Files<File = File> + Net + Clock>(
        rt: &R,
        at: Address,
        dir: &str,
        paths: &AreaPaths,
    ) -> io::Result<Self> {
        Ok(Opened {
            socket: Socket::bind(rt, at)?,
            areas: AreaFiles::open(rt, dir, paths)?,
            stopwatch: Stopwatch::start(rt)?,
        })
    }
}

/// A node's device over the system: a UDP socket, the files `slot0`, `slot1` and `selector` of a directory that exists, and milliseconds
/// of the monotonic clock since it began. It makes files that are missing, and no directory. Each error is a fault of its kind, but a
/// timeout and a signal at a receive, which are quiet. It tells no acts and no areas, and wants memory only where it begins.
///
/// It locks the directory as long as that is open. A beginning fails at a port that is taken, at a directory that is locked, at a file that
/// is no regular one with one name, and where the selector is missing beside a slot that has bytes. It leaves nothing open but what was
/// open before; one that succeeds closes that. So a device finds its own port and directory taken: it begins again at others alone.
///
/// After a sync that failed it is not known what the files hold: each store call then fails, until the device begins anew.
#[derive(Drop)]
pub struct RealDevice<'a, R> {
    rt: &'a R,
    opened: Option<Opened>,
    // Whether a sync has failed since it began.
    sync_failed: bool,
    counts: Counts,
    wants: u64,
}

impl<'a, R> Model for RealDevice<'a, R> {
    ghost use Rattle.std.specs.Prelude.{is_some};
    ghost use Rattle.os_edge.specs.RealViews.{RealView, faults_of};

    ghost Value = { RealView };

    ghost view = { λ device. record {
      begun = is_some device.opened;
      sync_failed = device.sync_failed;
      faults = faults_of device.counts;
      wants = device.wants;
    } };
}

impl<'a, R> RealDevice<'a, R> {
    /// A device that has not begun, over the system that the runtime reaches.
    pub fn new(rt: &'a R) -> Self
        ensures { result ≡ unbegun }
    {
        RealDevice {
            rt,
            opened: None,
            sync_failed: false,
            counts: Counts {
                begin: 0,
                receive: 0,
                store: 0,
                send: 0,
            },
            wants: 0,
        }
    }

    /// How often its calls have failed.
    pub fn faults(&self) -> Counts
        ensures { faults_of result ≡ self.now.faults }
    {
        self.counts
    }

    /// How often it has answered want of memory.
    pub fn wants(&self) -> u64
        ensures { result ≡ self.now.wants }
    {
        self.wants
    }

    fn opened(&self) -> &Opened
        requires { self.now.begun ≡ true }
    {
        match &self.opened {
            Some(opened) => opened,
            None => unreachable!(),
        }
    }

    // The areas, unless a sync has failed.
    fn areas(&self) -> Option<&AreaFiles>
        requires { self.now.begun ≡ true }
        ensures { is_some result ≡ not self.now.sync_failed }
    {
        if self.sync_failed {
            None
        } else {
            Some(&self.opened().areas)
        }
    }

    // What beginning comes to that the system answered so.
    fn begin_outcome(&mut self, opened: io::Result<Opened>) -> Begun
        ensures outcome { result ≡ begin_outcome opened }
        ensures counts { NoFewer self.old.faults self.new.faults }
        ensures leaves { BeginLeaves self.old self.new result }
    {
        match opened {
            Ok(opened) => {
                self.opened = Some(opened);
                self.sync_failed = false;
                Begun::Ready
            }
            Err(_) => {
                self.counts.begin = self.counts.begin.saturating_add(1);
                Begun::Failed
            }
        }
    }

    // Counts a store call that failed.
    fn counted(&mut self, stored: Stored) -> Stored
        requires { StoresOrFails stored }
        ensures same { result ≡ stored }
        ensures counts { NoFewer self.old.faults self.new.faults }
        ensures leaves { StoreLeaves self.old self.new result }
    {
        if let Stored::Failed = stored {
            self.counts.store = self.counts.store.saturating_add(1);
        }
        stored
    }
}

impl<'a, R: Files<File = File> + Net + Clock + AllocGlobal> Device for RealDevice<'a, R> {
    ghost told = { λ _. untold };

    ghost begun = { λ device. device.begun };

    ghost faults = { λ device. device.faults };

    ghost wants = { λ device. device.wants };

    fn begin(&mut self, at: Address, dir: &str) -> Begun
        ensures outcome { Begins self.old.begun self.new.begun untold untold at dir.now result }
        ensures causes { BeginCounts self.old.faults self.new.faults result }
        ensures counts { NoFewer self.old.faults self.new.faults }
        ensures wants { Wants (begin_wants result) self.old.wants self.new.wants }
        ensures leaves { BeginLeaves self.old self.new result }
    {
        let Ok(paths) = AreaPaths::within(self.rt.alloc(), dir) else {
            self.wants = self.wants.saturating_add(1);
            return Begun::Memory;
        };
        let opened = Opened::open(self.rt, at, dir, &paths);
        self.begin_outcome(opened)
    }

    fn now(&mut self) -> u64
        requires { self.old.begun ≡ true }
        ensures outcome { OnSome untold (Did untold untold (Now result ∷ [])) }
        ensures tells { TellsOn 1 untold untold }
        ensures begun { self.new.begun ≡ true }
        ensures causes { self.new.faults ≡ self.old.faults }
        ensures wants { self.new.wants ≡ self.old.wants }
        ensures leaves { self.new ≡ self.old }
    {
        match &mut self.opened {
            Some(opened) => opened.stopwatch.millis(self.rt),
            None => unreachable!(),
        }
    }

    fn receive(&mut self, wait_ms: u32, buf: &mut [u8]) -> Received
        requires begun { self.old.begun ≡ true }
        requires room { RECEIVE_BUFFER ≤ length buf.old }
        ensures outcome { Receives wait_ms buf.new untold untold result }
        ensures begun { self.new.begun ≡ true }
        ensures causes { ReceiveCounts self.old.faults self.new.faults result }
        ensures counts { NoFewer self.old.faults self.new.faults }
        ensures wants { Wants (receive_wants result) self.old.wants self.new.wants }
        ensures leaves { ReceiveLeaves self.old self.new result }
    {
        let received = match &mut self.opened {
            Some(opened) => opened.socket.receive(wait_ms, buf),
            None => unreachable!(),
        };
        if let Received::Failed = received {
            self.counts.receive = self.counts.receive.saturating_add(1);
        }
        received
    }

    fn send(&mut self, to: Address, bytes: &[u8]) -> Shipped
        requires { self.old.begun ≡ true }
        ensures outcome { Sends to bytes.now untold untold result }
        ensures begun { self.new.begun ≡ true }
        ensures causes { SendCounts self.old.faults self.new.faults result }
        ensures counts { NoFewer self.old.faults self.new.faults }
        ensures wants { Wants (send_wants result) self.old.wants self.new.wants }
        ensures leaves { SendLeaves self.old self.new result }
    {
        let shipped = self.opened().socket.send(to, bytes);
        if let Shipped::Failed = shipped {
            self.counts.send = self.counts.send.saturating_add(1);
        }
        shipped
    }

    fn read_at(&mut self, area: u8, at: u64, buf: &mut [u8]) -> AreaRead
        requires begun { self.old.begun ≡ true }
        requires area { area < 3 }
        ensures outcome { Reads area at untold untold buf.old buf.new result }
        ensures begun { self.new.begun ≡ true }
        ensures causes { ReadCounts self.old.faults self.new.faults result }
        ensures counts { NoFewer self.old.faults self.new.faults }
        ensures wants { Wants (read_wants result) self.old.wants self.new.wants }
        ensures stopped { self.old.sync_failed ≡ true → result ≡ AreaRead.Failed }
        ensures leaves { ReadLeaves self.old self.new result }
    {
        let read = match self.areas() {
            Some(areas) => areas.read_at(area, at, buf),
            None => AreaRead::Failed,
        };
        if let AreaRead::Failed = read {
            self.counts.store = self.counts.store.saturating_add(1);
        }
        read
    }

    fn write_at(&mut self, area: u8, at: u64, bytes: &[u8]) -> Stored
        requires begun { self.old.begun ≡ true }
        requires area { area < 3 }
        ensures outcome { Stores (WriteAt area at bytes.now) (Wrote area at bytes.now) untold untold result }
        ensures others { OthersStay area untold untold }
        ensures begun { self.new.begun ≡ true }
        ensures causes { StoreCounts self.old.faults self.new.faults result }
        ensures counts { NoFewer self.old.faults self.new.faults }
        ensures wants { Wants (store_wants result) self.old.wants self.new.wants }
        ensures stopped { self.old.sync_failed ≡ true → result ≡ Stored.Failed }
        ensures leaves { StoreLeaves self.old self.new result }
    {
        let stored = match self.areas() {
            Some(areas) => areas.write_at(area, at, bytes),
            None => Stored::Failed,
        };
        self.counted(stored)
    }

    fn cut(&mut self, area: u8, len: u64) -> Stored
        requires begun { self.old.begun ≡ true }
        requires area { area < 3 }
        ensures outcome { Stores (CutTo area len) (Cut area len) untold untold result }
        ensures others { OthersStay area untold untold }
        ensures begun { self.new.begun ≡ true }
        ensures causes { StoreCounts self.old.faults self.new.faults result }
        ensures counts { NoFewer self.old.faults self.new.faults }
        ensures wants { Wants (store_wants result) self.old.wants self.new.wants }
        ensures stopped { self.old.sync_failed ≡ true → result ≡ Stored.Failed }
        ensures leaves { StoreLeaves self.old self.new result }
    {
        let stored = match self.areas() {
            Some(areas) => areas.cut(area, len),
            None => Stored::Failed,
        };
        self.counted(stored)
    }

    fn sync(&mut self, area: u8) -> Stored
        requires begun { self.old.begun ≡ true }
        requires area { area < 3 }
        ensures outcome { Stores (Sync area) (Synced area) untold untold result }
        ensures others { OthersStay area untold untold }
        ensures begun { self.new.begun ≡ true }
        ensures causes { StoreCounts self.old.faults self.new.faults result }
        ensures counts { NoFewer self.old.faults self.new.faults }
        ensures wants { Wants (store_wants result) self.old.wants self.new.wants }
        ensures stopped { self.old.sync_failed ≡ true → result ≡ Stored.Failed }
        ensures leaves { SyncLeaves self.old self.new result }
    {
        let stored = match self.areas() {
            Some(areas) => areas.sync(area),
            None => Stored::Failed,
        };
        if let Stored::Failed = stored {
            self.sync_failed = true;
        }
        self.counted(stored)
    }
}
