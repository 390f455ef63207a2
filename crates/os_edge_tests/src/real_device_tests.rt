ghost use Rattle.std.specs.Prelude.{◌≡◌, ◌<◌, true};

use crate::places::{begun, empty_folder, free_addresses};
use node_device::{AreaRead, Device, RECEIVE_BUFFER, Received, Shipped, Stored};
use os_edge::{Counts, RealDevice};
use outside::{Address, Begun};
use std::fs;
use std::path::PathBuf;
use std::rt::Files;
use std::test::Fail;

const NO_FAULTS: Counts = Counts {
    begin: 0,
    receive: 0,
    store: 0,
    send: 0,
};

// A datagram that a node sends.
const SENT: [u8; 43] = [
    0x56, 0x02, 0x05, 0x00, 0x01, 0x00, 0x00, 0x01, 0x02, 0x03, 0x04, 0x05, 0x06, 0x07, 0x08, 0x09,
    0x0A, 0x0B, 0x0C, 0x0D, 0x0E, 0x0F, 0x01, 0x00, 0x00, 0x00, 0x00, 0x00, 0x00, 0x00, 0x01, 0x00,
    0x00, 0x00, 0x00, 0x00, 0x00, 0x00, 0x00, 0x00, 0x00, 0x00, 0x00,
];

// Whether a receive comes to this, and leaves these at the front of its room, which was filled with bars.
fn receives<D: Device>(device: &mut D, wait_ms: u32, wanted: Received, front: &[u8]) -> bool
    requires { D.begun device.old ≡ true }
    ensures { D.begun device.new ≡ true }
{
    let mut room = [b'|'; RECEIVE_BUFFER];
    device.receive(wait_ms, &mut room) == wanted && room.starts_with(front)
}

// What a write of two bytes at the place 3 of an area, a sync and a cut to 4 come to.
fn store<D: Device>(device: &mut D, area: u8, bytes: [u8; 2]) -> [Stored; 3]
    requires begun { D.begun device.old ≡ true }
    requires area { area < 3 }
    ensures { D.begun device.new ≡ true }
{
    let wrote = device.write_at(area, 3, &bytes);
    let synced = device.sync(area);
    [wrote, synced, device.cut(area, 4)]
}

// What these come to at each area, with a letter of its own.
fn store_each<D: Device>(device: &mut D) -> [[Stored; 3]; 3]
    requires { D.begun device.old ≡ true }
    ensures { D.begun device.new ≡ true }
{
    let slot0 = store(device, 0, *b"ax");
    let slot1 = store(device, 1, *b"bx");
    [slot0, slot1, store(device, 2, *b"cx")]
}

// What a read of four bytes from a place of an area comes to, and the room after it, which was filled with bars.
fn read_four<D: Device>(device: &mut D, area: u8, at: u64) -> (AreaRead, [u8; 4])
    requires begun { D.begun device.old ≡ true }
    requires area { area < 3 }
    ensures { D.begun device.new ≡ true }
{
    let mut room = [b'|'; 4];
    let read = device.read_at(area, at, &mut room);
    (read, room)
}

// Whether receives are quiet until the clock has grown.
fn time_passes<D: Device>(device: &mut D) -> bool
    requires { D.begun device.old ≡ true }
    ensures { D.begun device.new ≡ true }
{
    let start = device.now();
    for _ in 0..1_000 {
        if !receives(device, 10, Received::Quiet, b"") {
            return false;
        }
        if device.now() > start {
            return true;
        }
    }
    false
}

// Whether a datagram of the left device comes to the right one, byte for byte.
fn comes<L: Device, R: Device>(left: &mut L, right: &mut R, ends: [Address; 2]) -> bool
    requires left { L.begun left.old ≡ true }
    requires right { R.begun right.old ≡ true }
    ensures left { L.begun left.new ≡ true }
    ensures right { R.begun right.new ≡ true }
{
    let [from, to] = ends;
    if left.send(to, &SENT) != Shipped::Sent {
        return false;
    }
    let wanted = Received::Datagram { from, len: 43 };
    receives(right, 10_000, wanted, &SENT)
}

// Whether what is stored in each area is read again, up to the area's end.
fn keeps<D: Device>(device: &mut D) -> bool
    requires { D.begun device.old ≡ true }
    ensures { D.begun device.new ≡ true }
{
    store_each(device) == [[Stored::Done; 3]; 3]
        && read_four(device, 2, 1) == (AreaRead::Got(3), *b"\0\0c|")
        && read_four(device, 2, 4) == (AreaRead::Got(0), [b'|'; 4])
}

// Whether a file of the folder has these bytes.
fn has<R: Files + AllocGlobal>(
    rt: &R,
    folder: &PathBuf,
    name: &str,
    bytes: &[u8],
) -> Result<bool, Fail> {
    let path = folder.join(rt.alloc(), name)?;
    let found = fs::read(rt, path.as_path())?;
    Ok(found.as_slice() == bytes)
}

// Whether the files of the folder are what was stored.
fn are_stored<R: Files + AllocGlobal>(rt: &R, folder: &PathBuf) -> Result<bool, Fail> {
    Ok(
        has(rt, folder, "slot0", b"\0\0\0a")?
            && has(rt, folder, "slot1", b"\0\0\0b")?
            && has(rt, folder, "selector", b"\0\0\0c")?,
    )
}

#[test]
fn datagrams_time_and_areas_are_those_of_the_system(rt: HostRuntime) -> Result<(), Fail> {
    let (folder, other) = (empty_folder(&rt, "left")?, empty_folder(&rt, "right")?);
    let ends = free_addresses(&rt)?;
    let mut left = begun(&rt, ends[0], folder.as_str()).expect(&rt, "begins");
    let mut right = begun(&rt, ends[1], other.as_str()).expect(&rt, "begins");
    assert!(rt; comes(&mut left, &mut right, ends));
    assert!(rt; time_passes(&mut right));
    assert!(rt; receives(&mut right, 0, Received::Quiet, b"|||"));
    assert!(rt; keeps(&mut left));
    assert!(rt; are_stored(&rt, &folder)?);
    assert!(rt; left.faults() == NO_FAULTS && right.faults() == NO_FAULTS);
    fs::remove_dir_all(&rt, folder.as_path())?;
    fs::remove_dir_all(&rt, other.as_path())?;
    Ok(())
}

#[test]
fn a_device_that_begins_again_is_as_it_was_begun(rt: HostRuntime) -> Result<(), Fail> {
    let (folder, other) = (empty_folder(&rt, "again")?, empty_folder(&rt, "anew")?);
    let [here, there] = free_addresses(&rt)?;
    let mut device = begun(&rt, here, folder.as_str()).expect(&rt, "begins");
    // Its own port is taken, and its own directory.
    assert!(rt; device.begin(here, other.as_str()) == Begun::Failed);
    assert!(rt; device.begin(there, folder.as_str()) == Begun::Failed);
    assert!(rt;
        device.faults()
            == Counts {
                begin: 2,
                ..NO_FAULTS
            }
    );
    // Nothing of what failed is open, and then nothing of before.
    assert!(rt; device.begin(there, other.as_str()) == Begun::Ready);
    assert!(rt; begun(&rt, here, folder.as_str()).is_some());
    fs::remove_dir_all(&rt, folder.as_path())?;
    fs::remove_dir_all(&rt, other.as_path())?;
    Ok(())
}

// Whether a length, and a datagram, that the system cannot have are refused.
fn refuses<D: Device>(device: &mut D, to: Address) -> bool
    requires { D.begun device.old ≡ true }
{
    device.cut(0, u64::MAX) == Stored::Failed
        && read_four(device, 0, u64::MAX) == (AreaRead::Failed, [b'|'; 4])
        && device.send(to, &[0; 70_000]) == Shipped::Failed
}

#[test]
fn calls_that_the_system_refuses_are_counted(rt: HostRuntime) -> Result<(), Fail> {
    let folder = empty_folder(&rt, "faults")?;
    let [here, there] = free_addresses(&rt)?;
    let mut device = RealDevice::new(&rt);
    assert!(rt; device.begin(here, "os_edge_nowhere") == Begun::Failed);
    assert!(rt; device.begin(here, folder.as_str()) == Begun::Ready);
    assert!(rt; refuses(&mut device, there));
    let counts = Counts {
        begin: 1,
        receive: 0,
        store: 2,
        send: 1,
    };
    assert!(rt; device.faults() == counts && device.wants() == 0);
    fs::remove_dir_all(&rt, folder.as_path())?;
    Ok(())
}
