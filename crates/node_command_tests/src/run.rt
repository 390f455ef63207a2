use crate::bytes::KV;
use node_device_mem::{Areas, Arrival, MemoryDevice, MemoryDisk, PastAct};
use outside::Address;
use outside_mem::{SteadySink, SteadySource};
use std::alloc::{AllocError, Global};
use std::test::Fail;
use top_call::run as run_program;

/// A datagram, with the port of this machine that it comes from or goes to.
pub type Ported<'a> = (u16, &'a [u8]);

/// How node 0 is run: its turns as a word, and after how many acts all calls of its device fail. Beginning is the first act.
#[derive(Clone, Copy)]
pub struct Start<'a> {
    pub turns: &'a str,
    pub stop: u64,
}

/// Three turns, and no failing call.
pub const START: Start<'static> = Start {
    turns: "3",
    stop: u64::MAX,
};

/// A status, a text on the output and a line on the error stream.
#[derive(Clone, Copy)]
pub struct Answer<'a> {
    pub status: u8,
    pub out: &'a [u8],
    pub err: &'a [u8],
}

/// The answer after three turns.
pub const THREE_TURNS: Answer<'static> = Answer {
    status: 0,
    out: b"turns 3\n",
    err: b"",
};

/// What a run came to.
#[derive(Drop)]
pub struct Ran {
    pub status: u8,
    pub out: SteadySink,
    pub err: SteadySink,
    pub device: MemoryDevice,
}

/// The address of a port of this machine.
pub fn at(port: u16) -> Address {
    Address {
        ip: [127, 0, 0, 1],
        port,
    }
}

/// The arrival of a datagram.
pub fn arrival(alloc: Global, port: u16, bytes: &[u8]) -> Result<Arrival, AllocError> {
    Ok(Arrival::Datagram {
        from: at(port),
        bytes: Vec::from_slice(alloc, bytes)?,
    })
}

/// The arrivals of datagrams.
pub fn arrivals(alloc: Global, datagrams: &[Ported<'_>]) -> Result<Vec<Arrival>, AllocError> {
    let mut arrivals = Vec::new(alloc);
    for (port, bytes) in datagrams {
        arrivals.push(arrival(alloc, *port, *bytes)?)?;
    }
    Ok(arrivals)
}

// The words of node 0 for so many turns.
fn words(alloc: Global, turns: &str) -> Result<Vec<String>, AllocError> {
    let mut words = Vec::new(alloc);
    for word in [
        "vst", "node", "--me", "0", "--turns", turns, "--state", "state",
    ] {
        words.push(String::from_str(alloc, word)?)?;
    }
    Ok(words)
}

// A device over empty areas, with a clock at 0, which has not begun.
fn device(alloc: Global, stop: u64, arrivals: Vec<Arrival>) -> Result<MemoryDevice, AllocError> {
    let areas = Areas {
        slot0: Vec::new(alloc),
        slot1: Vec::new(alloc),
        selector: Vec::new(alloc),
    };
    let disk = MemoryDisk::new(alloc, areas);
    let (clock, failing) = (Vec::new(alloc), Vec::new(alloc));
    let mut device = MemoryDevice::new(alloc, disk, arrivals, clock, failing)?;
    device.stop_after(stop);
    Ok(device)
}

/// Runs a node. Want of memory is no answer of a run.
pub fn run(alloc: Global, start: &Start<'_>, arrivals: Vec<Arrival>) -> Result<Ran, Fail> {
    let words = words(alloc, start.turns)?;
    let mut input = SteadySource::new(Vec::from_slice(alloc, KV)?);
    let mut out = SteadySink::new(alloc);
    let mut err = SteadySink::new(alloc);
    let mut device = device(alloc, start.stop, arrivals)?;
    let status = run_program(alloc, &words, &mut input, &mut out, &mut err, &mut device);
    if status == 8 {
        return Err(AllocError.into());
    }
    Ok(Ran {
        status,
        out,
        err,
        device,
    })
}

impl Ran {
    /// Whether it answered this.
    pub fn answered(&self, wanted: &Answer<'_>) -> bool {
        self.status == wanted.status
            && self.out.written() == wanted.out
            && self.err.written() == wanted.err
    }

    /// Whether it sent these datagrams, in this order, and no other.
    pub fn sent<'a>(&self, wanted: &'a [Ported<'a>]) -> bool {
        let mut left = wanted.iter();
        for past in self.device.past() {
            if let PastAct::Sent(to, bytes) = &past.act {
                let Some((port, first)) = left.next() else {
                    return false;
                };
                if *to != at(*port) || bytes.as_slice() != *first {
                    return false;
                }
            }
        }
        left.next().is_none()
    }

    /// Whether its areas hold this.
    pub fn holds(&self, areas: [&[u8]; 3]) -> bool {
        let [slot0, slot1, selector] = areas;
        self.device.area(0) == slot0
            && self.device.area(1) == slot1
            && self.device.area(2) == selector
    }

    /// Whether it answered this, sent these datagrams and no other, and its areas hold this.
    pub fn came_to<'a>(
        &self,
        answer: &Answer<'_>,
        sends: &'a [Ported<'a>],
        leaves: [&[u8]; 3],
    ) -> bool {
        self.answered(answer) && self.sent(sends) && self.holds(leaves)
    }
}
