ghost use Rattle.std.specs.Prelude.{◌≡◌, ℕ, Bool, true, ◌<◌, ◌≤◌, [], ◌∷◌, length, Option, OnSome};
ghost use Rattle.disk.specs.Acts.{WriteAt, CutTo, Sync, Now, Wrote, Cut, Synced};
ghost use Rattle.node_device.specs.Faults.{Faults, NoFewer, BeginCounts, ReceiveCounts, SendCounts, ReadCounts, StoreCounts};
ghost use Rattle.node_device.specs.Telling.{Told, Did, OthersStay, TellsOn};
ghost use Rattle.node_device.specs.Outcomes.{Begins, Stores, Reads, Sends, Receives};
ghost use Rattle.node_device.specs.Wants.{Wants, begin_wants, receive_wants, send_wants, read_wants, store_wants};
ghost use Rattle.node_device.specs.declared.limits.TheConstants.{RECEIVE_BUFFER};

use outside::{Address, Begun};

/// What a receive came to.
#[derive(Clone, Copy, Debug, PartialEq, Eq)]
pub enum Received {
    /// A datagram, of which so many bytes stand at the front of the buffer.
    Datagram { from: Address, len: usize },
    /// None came in time.
    Quiet,
    /// The receive failed.
    Failed,
    /// Want of memory: nothing was done or recorded, and no count rose.
    Memory,
}

/// What a send came to.
#[derive(Clone, Copy, Debug, PartialEq, Eq)]
pub enum Shipped {
    /// The datagram went out. Whether it arrives is not known.
    Sent,
    /// The send failed, which is a loss as any other.
    Failed,
    /// Want of memory: nothing was done or recorded, and no count rose.
    Memory,
}

/// What a read of an area came to.
#[derive(Clone, Copy, Debug, PartialEq, Eq)]
pub enum AreaRead {
    /// So many bytes, at the front of the buffer. 0 into a buffer that is not empty is the area's end.
    Got(usize),
    /// The read failed.
    Failed,
    /// Want of memory: nothing was done or recorded, and no count rose.
    Memory,
}

/// What a write, a cut or a sync came to.
#[derive(Clone, Copy, Debug, PartialEq, Eq)]
pub enum Stored {
    /// It was done.
    Done,
    /// It failed, and may have been done in part.
    Failed,
    /// Want of memory: nothing was done or recorded, and no count rose.
    Memory,
}

/// What a node runs on: a socket, a directory of three areas and a clock. Areas 0 and 1 are the slots, area 2 is the selector.
/// Every call but `begin` needs that the device has begun.
pub trait Device {
    /// The record of its acts since it was made, and what stands and is pending on its areas, where the object tells them.
    ghost told: { Self → Option Told };

    /// Whether it has begun.
    ghost begun: { Self → Bool };

    /// How often its calls have failed.
    ghost faults: { Self → Faults };

    /// How often a call has answered want of memory. This is no count of faults.
    ghost wants: { Self → ℕ };

    /// Listens at the address, and opens the directory.
    fn begin(&mut self, at: Address, dir: &str) -> Begun
        ensures outcome { Begins (begun self.old) (begun self.new) (told self.old) (told self.new) at dir.now result }
        ensures causes { BeginCounts (faults self.old) (faults self.new) result }
        ensures counts { NoFewer (faults self.old) (faults self.new) }
        ensures wants { Wants (begin_wants result) (wants self.old) (wants self.new) };

    /// Milliseconds, which may be any number. It never fails and takes no memory, so here alone a device may stop telling: where its
    /// record has so many clock values that a `u64` counts no more.
    fn now(&mut self) -> u64
        requires { begun self.old ≡ true }
        ensures outcome { OnSome (told self.new) (Did (told self.old) (told self.new) (Now result ∷ [])) }
        ensures tells { TellsOn 1 (told self.old) (told self.new) }
        ensures begun { begun self.new ≡ true }
        ensures causes { faults self.new ≡ faults self.old }
        ensures wants { wants self.new ≡ wants self.old };

    /// Waits at most so many milliseconds for a datagram, which is cut to the buffer. The buffer holds each datagram that the network
    /// carries, so that none is cut.
    fn receive(&mut self, wait_ms: u32, buf: &mut [u8]) -> Received
        requires begun { begun self.old ≡ true }
        requires room { RECEIVE_BUFFER ≤ length buf.old }
        ensures outcome { Receives wait_ms buf.new (told self.old) (told self.new) result }
        ensures begun { begun self.new ≡ true }
        ensures causes { ReceiveCounts (faults self.old) (faults self.new) result }
        ensures counts { NoFewer (faults self.old) (faults self.new) }
        ensures wants { Wants (receive_wants result) (wants self.old) (wants self.new) };

    /// Sends a datagram.
    fn send(&mut self, to: Address, bytes: &[u8]) -> Shipped
        requires { begun self.old ≡ true }
        ensures outcome { Sends to bytes.now (told self.old) (told self.new) result }
        ensures begun { begun self.new ≡ true }
        ensures causes { SendCounts (faults self.old) (faults self.new) result }
        ensures counts { NoFewer (faults self.old) (faults self.new) }
        ensures wants { Wants (send_wants result) (wants self.old) (wants self.new) };

    /// Reads an area from a place on, at most as many bytes as the buffer has.
    fn read_at(&mut self, area: u8, at: u64, buf: &mut [u8]) -> AreaRead
        requires begun { begun self.old ≡ true }
        requires area { area < 3 }
        ensures outcome { Reads area at (told self.old) (told self.new) buf.old buf.new result }
        ensures begun { begun self.new ≡ true }
        ensures causes { ReadCounts (faults self.old) (faults self.new) result }
        ensures counts { NoFewer (faults self.old) (faults self.new) }
        ensures wants { Wants (read_wants result) (wants self.old) (wants self.new) };

    /// Writes all the bytes into an area at a place. A gap before it is filled with `00`.
    fn write_at(&mut self, area: u8, at: u64, bytes: &[u8]) -> Stored
        requires begun { begun self.old ≡ true }
        requires area { area < 3 }
        ensures outcome { Stores (WriteAt area at bytes.now) (Wrote area at bytes.now) (told self.old) (told self.new) result }
        ensures others { OthersStay area (told self.old) (told self.new) }
        ensures begun { begun self.new ≡ true }
        ensures causes { StoreCounts (faults self.old) (faults self.new) result }
        ensures counts { NoFewer (faults self.old) (faults self.new) }
        ensures wants { Wants (store_wants result) (wants self.old) (wants self.new) };

    /// Makes an area this long. What it adds is `00`.
    fn cut(&mut self, area: u8, len: u64) -> Stored
        requires begun { begun self.old ≡ true }
        requires area { area < 3 }
        ensures outcome { Stores (CutTo area len) (Cut area len) (told self.old) (told self.new) result }
        ensures others { OthersStay area (told self.old) (told self.new) }
        ensures begun { begun self.new ≡ true }
        ensures causes { StoreCounts (faults self.old) (faults self.new) result }
        ensures counts { NoFewer (faults self.old) (faults self.new) }
        ensures wants { Wants (store_wants result) (wants self.old) (wants self.new) };

    /// Brings an area to the disk: after a crash it is then as it reads.
    fn sync(&mut self, area: u8) -> Stored
        requires begun { begun self.old ≡ true }
        requires area { area < 3 }
        ensures outcome { Stores (Sync area) (Synced area) (told self.old) (told self.new) result }
        ensures others { OthersStay area (told self.old) (told self.new) }
        ensures begun { begun self.new ≡ true }
        ensures causes { StoreCounts (faults self.old) (faults self.new) result }
        ensures counts { NoFewer (faults self.old) (faults self.new) }
        ensures wants { Wants (store_wants result) (wants self.old) (wants self.new) };
}
