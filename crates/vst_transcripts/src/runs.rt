use crate::case::{Case, Coming, Counted, Scripted};
use drawn_schedules::run_draw;
use node_device_mem::{Areas, Arrival, MemoryDevice, MemoryDisk};
use outside::Address;
use outside_mem::{MemorySink, MemorySource};
use std::alloc::{AllocError, Global};
use top_call::run;

/// What a run came to.
#[derive(Drop)]
pub(crate) struct Ran {
    pub(crate) status: u8,
    pub(crate) source: MemorySource,
    pub(crate) out: MemorySink,
    pub(crate) err: MemorySink,
    pub(crate) device: MemoryDevice,
}

// The numbers of what is counted so in a script.
fn numbers_of(alloc: Global, script: &[Scripted], what: Counted) -> Result<Vec<u64>, AllocError> {
    let mut numbers = Vec::new(alloc);
    for one in script {
        if one.what == what {
            numbers.push(one.number)?;
        }
    }
    Ok(numbers)
}

// The areas once more.
fn copy_of(alloc: Global, areas: &Areas) -> Result<Areas, AllocError> {
    Ok(Areas {
        slot0: Vec::from_slice(alloc, &areas.slot0)?,
        slot1: Vec::from_slice(alloc, &areas.slot1)?,
        selector: Vec::from_slice(alloc, &areas.selector)?,
    })
}

// What comes, as the device has it.
fn arrival(alloc: Global, coming: &Coming) -> Result<Arrival, AllocError> {
    match coming.from {
        None => Ok(Arrival::Quiet),
        Some(port) => Ok(Arrival::Datagram {
            from: Address {
                ip: [127, 0, 0, 1],
                port,
            },
            bytes: Vec::from_slice(alloc, &coming.bytes)?,
        }),
    }
}

// All that comes.
fn arrivals(alloc: Global, comes: &[Coming]) -> Result<Vec<Arrival>, AllocError> {
    let mut arrivals = Vec::new(alloc);
    for coming in comes {
        arrivals.push(arrival(alloc, coming)?)?;
    }
    Ok(arrivals)
}

// Lets a device stop where the script says so.
fn stop_by(device: &mut MemoryDevice, stops: &[u64]) {
    if let Some(stop) = stops.first() {
        device.stop_after(*stop);
    }
}

// The device of a case, with this script.
fn device_of(alloc: Global, case: &Case, fails: &[Scripted]) -> Result<MemoryDevice, AllocError> {
    let disk = MemoryDisk::new(alloc, copy_of(alloc, &case.areas)?);
    let arrivals = arrivals(alloc, &case.comes)?;
    let clock = Vec::from_slice(alloc, &case.clock)?;
    let failing = numbers_of(alloc, fails, Counted::Call)?;
    let mut device = MemoryDevice::new(alloc, disk, arrivals, clock, failing)?;
    stop_by(&mut device, &numbers_of(alloc, fails, Counted::Stop)?);
    Ok(device)
}

// The input of a case, with this script.
fn source_of(alloc: Global, case: &Case, fails: &[Scripted]) -> Result<MemorySource, AllocError> {
    let failing = numbers_of(alloc, fails, Counted::Read)?;
    let input = Vec::from_slice(alloc, &case.input)?;
    Ok(MemorySource::new(input, case.read.max(1), failing))
}

// The output or the error stream of a case, with this script.
fn sink_of(
    alloc: Global,
    case: &Case,
    fails: &[Scripted],
    what: Counted,
) -> Result<MemorySink, AllocError> {
    let failing = numbers_of(alloc, fails, what)?;
    let wanting = numbers_of(alloc, &case.wants, what)?;
    Ok(MemorySink::new(alloc, case.write.max(1), failing, wanting))
}

// What a case fails, and one more.
fn fails_of(
    alloc: Global,
    case: &Case,
    also: Option<Scripted>,
) -> Result<Vec<Scripted>, AllocError> {
    let mut fails = Vec::from_slice(alloc, &case.fails)?;
    if let Some(one) = also {
        fails.push(one)?;
    }
    Ok(fails)
}

// What a run is over, before it.
fn before(alloc: Global, case: &Case, fails: &[Scripted]) -> Result<Ran, AllocError> {
    Ok(Ran {
        status: 0,
        source: source_of(alloc, case, fails)?,
        out: sink_of(alloc, case, fails, Counted::Out)?,
        err: sink_of(alloc, case, fails, Counted::Err)?,
        device: device_of(alloc, case, fails)?,
    })
}

/// Runs a case, where one more may fail.
pub(crate) fn run_case(
    alloc: Global,
    case: &Case,
    also: Option<Scripted>,
) -> Result<Ran, AllocError> {
    let fails = fails_of(alloc, case, also)?;
    let mut ran = before(alloc, case, &fails)?;
    ran.status = if case.telling.draws {
        run_draw(alloc, &mut ran.source, &mut ran.out, &mut ran.err)
    } else {
        run(
            alloc,
            &case.words,
            &mut ran.source,
            &mut ran.out,
            &mut ran.err,
            &mut ran.device,
        )
    };
    Ok(ran)
}
