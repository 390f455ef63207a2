ghost use Rattle.std.specs.Prelude.{◌≡◌, true, IfOk};
ghost use Rattle.node_device_mem.specs.MemoryDevices.{memory_begun};

use crate::bytes::{ASKS, NAME, VOTE};
use crate::run::{Answer, Ran, START, Start, THREE_TURNS, arrivals, at, run};
use kv_machine::KvCmd;
use node_body::Who;
use node_device::Device;
use node_device_mem::{Areas, MemoryDevice, MemoryDisk};
use node_state::{OpenFault, Opened, open};
use outside::Begun;
use std::alloc::{AllocError, Global};
use std::test::Fail;
use vst_base::StackId;

const WHO: Who = Who {
    stack: StackId::KvRaft,
    me: 0,
    nodes: 3,
    name: NAME,
};

// What the areas of a node open as: nothing at all, or a state of this term, with a vote for this node.
#[derive(Clone, Copy, PartialEq, Eq)]
enum Left {
    Fresh,
    Held(u64, Option<u8>),
}

const FIRST: Left = Left::Held(0, None);

const VOTED: Left = Left::Held(1, Some(1));

// What the areas of a device open as.
fn opened<D: Device>(alloc: Global, device: &mut D) -> Result<Left, OpenFault>
    requires { D.begun device.old ≡ true }
{
    match open::<D, KvCmd>(alloc, device, &WHO)? {
        Opened::Fresh(_) => Ok(Left::Fresh),
        Opened::Held(_, kept) => Ok(Left::Held(
            kept.term(),
            match kept.voted() {
                Some(node) => Some(node.index()),
                None => None,
            },
        )),
    }
}

// A device over these areas that has begun.
fn begun(alloc: Global, areas: Areas) -> Result<MemoryDevice, AllocError>
    ensures { IfOk result (λ device. memory_begun device ≡ true) }
{
    let disk = MemoryDisk::new(alloc, areas);
    let none = Vec::new(alloc);
    let mut device = MemoryDevice::new(alloc, disk, none, Vec::new(alloc), Vec::new(alloc))?;
    match device.begin(at(7000), "state") {
        Begun::Ready => Ok(device),
        _ => Err(AllocError),
    }
}

// What the image of a word after so many acts opens as.
fn opens_as(alloc: Global, ran: &Ran, acts: u64, word: u32) -> Result<Left, Fail> {
    let image = ran.device.image(acts, word)?;
    let mut device = begun(alloc, image)?;
    Ok(opened(alloc, &mut device)?)
}

// What the image of a word after so many acts is to open as.
fn is_to_open_as(acts: u64, word: u32) -> Left {
    match (acts, word) {
        (..=10, _) | (11, 0) => Left::Fresh,
        (11..=21, _) | (22, 0 | 3) => FIRST,
        _ => VOTED,
    }
}

// Whether the images after so many acts open so.
fn open_so(alloc: Global, ran: &Ran, acts: u64) -> Result<bool, Fail> {
    for word in 0..4 {
        if opens_as(alloc, ran, acts, word)? != is_to_open_as(acts, word) {
            return Ok(false);
        }
    }
    Ok(true)
}

const STORE: Answer<'static> = Answer {
    status: 7,
    out: b"",
    err: b"store\n",
};

const RECEIVE: Answer<'static> = Answer {
    status: 6,
    out: b"",
    err: b"receive\n",
};

// Whether a run with one vote came to what it is to, where it stops after so many of its acts, of which there are 24.
fn ended_by_stop(ran: &Ran, stop: u64) -> bool {
    let answer = match stop {
        ..=11 | 19..=22 => &STORE,
        12..=18 => &RECEIVE,
        _ => &THREE_TURNS,
    };
    let sent = if stop < 24 {
        ran.sent(&[])
    } else {
        ran.sent(&[(7001, VOTE)])
    };
    ran.answered(answer) && sent
}

#[test]
fn a_stop_after_each_act_leaves_one_of_two_states(rt: HostRuntime) -> Result<(), Fail> {
    let alloc = rt.alloc();
    for stop in 1..=24 {
        let start = Start { stop, ..START };
        let ran = run(alloc, &start, arrivals(alloc, ASKS)?)?;
        assert!(rt; ended_by_stop(&ran, stop), "{stop}");
        assert!(rt; open_so(alloc, &ran, stop)?, "{stop}");
    }
    Ok(())
}
