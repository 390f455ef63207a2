ghost use Rattle.std.specs.Prelude.{◌≡◌, true, IfOk};
ghost use Rattle.node_device_mem.specs.MemoryDevices.{memory_begun};

use node_device::Device;
use node_device_mem::{Areas, MemoryDevice, MemoryDisk};
use outside::{Address, Begun};
use std::alloc::{AllocError, Global};

pub const HERE: Address = Address {
    ip: [127, 0, 0, 1],
    port: 7000,
};

// Areas that hold these bytes.
pub fn areas(
    alloc: Global,
    slot0: &[u8],
    slot1: &[u8],
    selector: &[u8],
) -> Result<Areas, AllocError> {
    Ok(Areas {
        slot0: Vec::from_slice(alloc, slot0)?,
        slot1: Vec::from_slice(alloc, slot1)?,
        selector: Vec::from_slice(alloc, selector)?,
    })
}

// A device over these areas that has begun, which is its first call and its first act. Calls of these numbers fail.
pub fn begun(alloc: Global, areas: Areas, failing: &[u64]) -> Result<MemoryDevice, AllocError>
    ensures { IfOk result (λ device. memory_begun device ≡ true) }
{
    let disk = MemoryDisk::new(alloc, areas);
    let failing = Vec::from_slice(alloc, failing)?;
    let mut device = MemoryDevice::new(alloc, disk, Vec::new(alloc), Vec::new(alloc), failing)?;
    match device.begin(HERE, "state") {
        Begun::Ready => Ok(device),
        _ => Err(AllocError),
    }
}
