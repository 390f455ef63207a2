ghost use Rattle.std.specs.Prelude.{◌≡◌, true, IfOk};
ghost use Rattle.node_device_mem.specs.MemoryDevices.{memory_begun};

use crate::devices::{HERE, areas, begun};
use node_device::{AreaRead, Device, RECEIVE_BUFFER, Received, Shipped, Stored};
use node_device_mem::{Arrival, Counts, MemoryDevice, MemoryDisk, SteadyDevice};
use outside::{Address, Begun};
use std::alloc::{AllocError, Global};
use std::test::Fail;

const THERE: Address = Address {
    ip: [127, 0, 0, 1],
    port: 7001,
};

// A device that has begun, whose slot 0 holds these bytes. Beginning is its first call, and those of these numbers fail.
fn with_slot_0(alloc: Global, slot0: &[u8], failing: &[u64]) -> Result<MemoryDevice, AllocError>
    ensures { IfOk result (λ device. memory_begun device ≡ true) }
{
    begun(alloc, areas(alloc, slot0, b"", b"")?, failing)
}

const ALL_DONE: (Stored, Stored, Stored) = (Stored::Done, Stored::Done, Stored::Done);

// What a write of two bytes at the place 3 of slot 0, a cut to 4 and a sync come to.
fn store<D: Device>(device: &mut D) -> (Stored, Stored, Stored)
    requires { D.begun device.old ≡ true }
    ensures { D.begun device.new ≡ true }
{
    let wrote = device.write_at(0, 3, b"xy");
    let cut = device.cut(0, 4);
    (wrote, cut, device.sync(0))
}

// What a read of four bytes from the place 1 of slot 0 comes to, and the room after it, which was filled with bars.
fn read_four<D: Device>(device: &mut D) -> (AreaRead, [u8; 4])
    requires { D.begun device.old ≡ true }
    ensures { D.begun device.new ≡ true }
{
    let mut room = [b'|'; 4];
    let read = device.read_at(0, 1, &mut room);
    (read, room)
}

// What a receive comes to, and the first four bytes of the room after it, which was filled with bars.
fn receive_four<D: Device>(device: &mut D) -> (Received, [u8; 4])
    requires { D.begun device.old ≡ true }
    ensures { D.begun device.new ≡ true }
{
    let mut room = [b'|'; RECEIVE_BUFFER];
    let received = device.receive(50, &mut room);
    (received, [room[0], room[1], room[2], room[3]])
}

// What two sends of a byte come to.
fn send_twice<D: Device>(device: &mut D) -> (Shipped, Shipped)
    requires { D.begun device.old ≡ true }
    ensures { D.begun device.new ≡ true }
{
    let first = device.send(THERE, b"c");
    (first, device.send(THERE, b"c"))
}

// A device that has begun, with a datagram of five bytes, none and one of one byte to come, and two clock values.
fn scripted(alloc: Global) -> Result<SteadyDevice, AllocError>
    ensures { IfOk result (λ device. device.begun ≡ true) }
{
    let disk = MemoryDisk::new(alloc, areas(alloc, b"", b"", b"")?);
    let mut arrivals = Vec::new(alloc);
    let bytes = Vec::from_slice(alloc, b"hello")?;
    arrivals.push(Arrival::Datagram { from: THERE, bytes })?;
    arrivals.push(Arrival::Quiet)?;
    let bytes = Vec::from_slice(alloc, b"a")?;
    arrivals.push(Arrival::Datagram { from: THERE, bytes })?;
    let mut device = SteadyDevice::new(alloc, disk, arrivals, vec![in alloc; 5, 9]?)?;
    match device.begin(HERE, "state") {
        Begun::Ready => Ok(device),
        _ => Err(AllocError),
    }
}

// A device on whose slot 0 an earlier process left a write pending.
fn left_pending(alloc: Global) -> Result<MemoryDevice, AllocError> {
    let mut disk = MemoryDisk::new(alloc, areas(alloc, b"abc", b"", b"")?);
    disk.write(alloc, 0, 1, b"x")?;
    let none = Vec::new(alloc);
    MemoryDevice::new(alloc, disk, none, Vec::new(alloc), Vec::new(alloc))
}

// Whether slot 0 is like this in the image of a word after so many acts.
fn is_image(device: &MemoryDevice, acts: u64, word: u32, wanted: &[u8]) -> bool {
    match device.image(acts, word) {
        Ok(image) => image.slot0.as_slice() == wanted,
        Err(_) => false,
    }
}

#[test]
fn an_area_is_written_cut_synced_and_read(rt: HostRuntime) -> Result<(), Fail> {
    let mut device = with_slot_0(rt.alloc(), b"a", &[])?;
    assert!(rt; store(&mut device) == ALL_DONE);
    assert!(rt; device.area(0) == b"a\0\0x".as_slice());
    assert!(rt; read_four(&mut device) == (AreaRead::Got(3), [0, 0, b'x', b'|']));
    assert!(rt; device.area(1).is_empty() && device.area(2).is_empty());
    assert!(rt; device.calls() == 5 && device.acts() == 4);
    Ok(())
}

#[test]
fn calls_fail_by_the_script(rt: HostRuntime) -> Result<(), Fail> {
    let mut device = with_slot_0(rt.alloc(), b"ab", &[2, 4, 5, 6, 7])?;
    assert!(rt; store(&mut device) == (Stored::Failed, Stored::Done, Stored::Failed));
    // the write that failed was done, and then cut
    assert!(rt; device.area(0) == b"ab\0x".as_slice());
    assert!(rt; is_image(&device, 4, 1, b"ab\0x") && is_image(&device, 2, 1, b"ab\0xy"));
    assert!(rt; read_four(&mut device) == (AreaRead::Failed, [b'|'; 4]));
    assert!(rt; receive_four(&mut device) == (Received::Failed, [b'|'; 4]));
    assert!(rt; send_twice(&mut device) == (Shipped::Failed, Shipped::Sent));
    let counts = Counts {
        begin: 0,
        receive: 1,
        store: 3,
        send: 1,
    };
    assert!(rt; device.counts() == counts);
    assert!(rt; device.past().len() == 8);
    Ok(())
}

#[test]
fn a_device_may_fail_to_begin(rt: HostRuntime) -> Result<(), Fail> {
    let alloc = rt.alloc();
    let disk = MemoryDisk::new(alloc, areas(alloc, b"", b"", b"")?);
    let none = Vec::new(alloc);
    let mut device = MemoryDevice::new(alloc, disk, none, Vec::new(alloc), vec![in alloc; 1]?)?;
    assert!(rt; device.begin(HERE, "state") == Begun::Failed);
    assert!(rt; device.counts().begin == 1);
    assert!(rt; device.begin(HERE, "state") == Begun::Ready);
    Ok(())
}

#[test]
fn each_call_fails_after_so_many_acts(rt: HostRuntime) -> Result<(), Fail> {
    let mut device = with_slot_0(rt.alloc(), b"", &[])?;
    device.stop_after(3);
    assert!(rt; device.now() == 0);
    assert!(rt; store(&mut device) == (Stored::Done, Stored::Failed, Stored::Failed));
    assert!(rt; receive_four(&mut device) == (Received::Failed, [b'|'; 4]));
    assert!(rt; device.now() == 0);
    Ok(())
}

// A datagram of so many bytes is received.
fn datagram(len: usize) -> Received {
    Received::Datagram { from: THERE, len }
}

#[test]
fn datagrams_come_by_the_script(rt: HostRuntime) -> Result<(), Fail> {
    let mut device = scripted(rt.alloc())?;
    assert!(rt; receive_four(&mut device) == (datagram(5), *b"hell"));
    assert!(rt; receive_four(&mut device) == (Received::Quiet, *b"||||"));
    assert!(rt; receive_four(&mut device) == (datagram(1), *b"a|||"));
    assert!(rt; receive_four(&mut device) == (Received::Quiet, *b"||||"));
    Ok(())
}

#[test]
fn clock_values_come_by_the_script(rt: HostRuntime) -> Result<(), Fail> {
    let mut device = scripted(rt.alloc())?;
    assert!(rt; device.now() == 5);
    assert!(rt; device.now() == 9);
    assert!(rt; device.now() == 9);
    Ok(())
}

#[test]
fn images_are_given_by_word(rt: HostRuntime) -> Result<(), Fail> {
    let mut device = with_slot_0(rt.alloc(), b"ab", &[])?;
    assert!(rt; device.now() == 0);
    assert!(rt; store(&mut device) == ALL_DONE);
    // acts 2 to 5 are the clock value, the write, the cut and the sync
    for (acts, word, wanted) in [
        (2, 2, b"ab".as_slice()),
        (3, 0, b"ab"),
        (3, 1, b"ab\0xy"),
        (3, 2, b"ab\xff\xff\xff"),
        (3, 3, b"ab\0\0\0"),
        (4, 0, b"ab"),
        (4, 1, b"ab\0x"),
        (4, 2, b"ab\xff\xff"),
        (5, 0, b"ab\0x"),
        (5, 2, b"ab\0x"),
        (5, 4, b"ab\0x"),
    ] {
        assert!(rt; is_image(&device, acts, word, wanted));
    }
    Ok(())
}

#[test]
fn what_an_earlier_process_left_may_be_pending(rt: HostRuntime) -> Result<(), Fail> {
    let device = left_pending(rt.alloc())?;
    assert!(rt; is_image(&device, 0, 1, b"axc"));
    assert!(rt; is_image(&device, 0, 2, b"a\xffc"));
    Ok(())
}
