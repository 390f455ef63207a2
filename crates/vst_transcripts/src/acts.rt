use crate::page::Page;
use node_device_mem::{MemoryDevice, Past, PastAct};
use outside::Address;
use std::alloc::AllocError;

// Adds what was done and where.
fn add_place(page: &mut Page, what: &str, at: Address) -> Result<(), AllocError> {
    let [a, b, c, d] = at.ip;
    page.add_number(what, u64::from(a))?;
    page.add_number(".", u64::from(b))?;
    page.add_number(".", u64::from(c))?;
    page.add_number(".", u64::from(d))?;
    page.add_number(":", u64::from(at.port))
}

// Adds that it began, or could not.
fn add_begun(page: &mut Page, what: &str, at: Address, dir: &[u8]) -> Result<(), AllocError> {
    add_place(page, what, at)?;
    page.add_marked(" ", dir)?;
    page.add(if dir.is_empty() { "\n" } else { "" })
}

// Adds a datagram.
fn add_datagram(page: &mut Page, what: &str, at: Address, bytes: &[u8]) -> Result<(), AllocError> {
    add_place(page, what, at)?;
    page.add_hex(" ", bytes)
}

// Adds one number and another.
fn add_two(
    page: &mut Page,
    what: &str,
    first: u64,
    between: &str,
    second: u64,
) -> Result<(), AllocError> {
    page.add_number(what, first)?;
    page.add_number(between, second)?;
    page.add("\n")
}

// Adds what was done with one number.
fn add_one(page: &mut Page, what: &str, number: u64) -> Result<(), AllocError> {
    page.add_number(what, number)?;
    page.add("\n")
}

// Adds a write.
fn add_write(
    page: &mut Page,
    what: &str,
    area: u8,
    at: u64,
    bytes: &[u8],
) -> Result<(), AllocError> {
    page.add_number(what, u64::from(area))?;
    page.add_number(" at ", at)?;
    page.add_hex(" ", bytes)
}

// Adds what came.
fn add_took(page: &mut Page, wait: u32, from: Address, bytes: &[u8]) -> Result<(), AllocError> {
    page.add_number("took within ", u64::from(wait))?;
    add_datagram(page, " ", from, bytes)
}

// Adds a read that failed.
fn add_read(page: &mut Page, area: u8, at: u64, most: u64) -> Result<(), AllocError> {
    page.add_number("read failed ", u64::from(area))?;
    add_two(page, " at ", at, " most ", most)
}

// Adds what was done to the areas.
fn add_stored(page: &mut Page, act: &PastAct) -> Result<(), AllocError> {
    match act {
        PastAct::Wrote(area, at, bytes) => add_write(page, "wrote ", *area, *at, bytes),
        PastAct::WriteFailed(area, at, bytes) => {
            add_write(page, "write failed ", *area, *at, bytes)
        }
        PastAct::Cut(area, len) => add_two(page, "cut ", u64::from(*area), " to ", *len),
        PastAct::CutFailed(area, len) => {
            add_two(page, "cut failed ", u64::from(*area), " to ", *len)
        }
        PastAct::Synced(area) => add_one(page, "synced ", u64::from(*area)),
        PastAct::SyncFailed(area) => add_one(page, "sync failed ", u64::from(*area)),
        PastAct::ReadFailed(area, at, most) => add_read(page, *area, *at, *most),
        _ => Ok(()),
    }
}

// Adds an act in words.
fn add_act(page: &mut Page, act: &PastAct) -> Result<(), AllocError> {
    match act {
        PastAct::Began(at, dir) => add_begun(page, "began ", *at, dir),
        PastAct::BeginFailed(at, dir) => add_begun(page, "begin failed ", *at, dir),
        PastAct::Took(wait, from, bytes) => add_took(page, *wait, *from, bytes),
        PastAct::Quiet(wait) => add_one(page, "quiet ", u64::from(*wait)),
        PastAct::ReceiveFailed(wait) => add_one(page, "receive failed ", u64::from(*wait)),
        PastAct::Sent(to, bytes) => add_datagram(page, "sent ", *to, bytes),
        PastAct::SendFailed(to, bytes) => add_datagram(page, "send failed ", *to, bytes),
        _ => add_stored(page, act),
    }
}

// The value of a clock after so many.
fn value_at(clock: &[u64], place: u64) -> u64 {
    let last = clock.len().saturating_sub(1);
    clock.get((place as usize).min(last)).copied().unwrap_or(0)
}

// Adds so many clock values from a place on.
fn add_nows(page: &mut Page, clock: &[u64], from: u64, nows: u64) -> Result<(), AllocError> {
    for place in 0..nows {
        add_one(page, "now ", value_at(clock, from.saturating_add(place)))?;
    }
    Ok(())
}

/// Adds the acts of a device in order, with the values of its clock.
pub(crate) fn add_acts(
    page: &mut Page,
    device: &MemoryDevice,
    clock: &[u64],
) -> Result<(), AllocError> {
    let mut told = 0u64;
    let mut from = 0u64;
    for past in device.past() {
        add_nows(page, clock, past.from, past.nows)?;
        add_act(page, &past.act)?;
        told = told.saturating_add(past.nows).saturating_add(1);
        from = past.from.saturating_add(past.nows);
    }
    add_nows(page, clock, from, device.acts().saturating_sub(told))
}

// Adds an act in words, if it sent a datagram.
fn add_if_sent(page: &mut Page, past: &Past) -> Result<(), AllocError> {
    match &past.act {
        PastAct::Sent(to, bytes) => add_datagram(page, "  sent ", *to, bytes),
        _ => Ok(()),
    }
}

/// Adds what a device sent.
pub(crate) fn add_sent(page: &mut Page, device: &MemoryDevice) -> Result<(), AllocError> {
    for past in device.past() {
        add_if_sent(page, past)?;
    }
    Ok(())
}

/// Adds the areas of a device, each behind a mark.
pub(crate) fn add_areas(
    page: &mut Page,
    mark: &str,
    device: &MemoryDevice,
) -> Result<(), AllocError> {
    for area in 0..3u8 {
        page.add(mark)?;
        page.add_number("area ", u64::from(area))?;
        page.add_hex(" ", device.area(area))?;
    }
    Ok(())
}
