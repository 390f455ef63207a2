ghost use Rattle.std.specs.Prelude.{◌≡◌, ◌<◌, ◌≤◌, true, [], take, vec_len, IfOk, OnOk, OnErr, IfSome};
ghost use Rattle.disk.specs.Areas.{area_at};
ghost use Rattle.node_device.specs.Telling.{StoppedIn};
ghost use Rattle.node_state.specs.Calls.{GrowsFirst, StateCounts};

use crate::StateFault;
use node_device::{AreaRead, Device};
use std::alloc::Global;

/// How many bytes one read asks for at most.
pub const PIECE: usize = 4096;

/// Reads on in an area whose front was read, until there are so many bytes, or the area ends.
pub fn read_on<D: Device>(
    device: &mut D,
    area: u8,
    bytes: &mut Vec<u8>,
    most: usize,
) -> Result<(), StateFault>
    requires begun { D.begun device.old ≡ true }
    requires area { area < 3 }
    requires len { vec_len bytes.old ≤ most }
    requires front { IfSome (D.told device.old) (λ told. bytes.old.items ≡ take (vec_len bytes.old) (area_at told.disk area).bytes) }
    ensures front { OnOk result (IfSome (D.told device.old) (λ told. bytes.new.items ≡ take most (area_at told.disk area).bytes)) }
    ensures len { OnOk result (vec_len bytes.new ≤ most) }
    ensures same { OnOk result (D.told device.new ≡ D.told device.old) }
    ensures stopped { OnErr result (StoppedIn (D.told device.old) (D.told device.new) []) }
    ensures causes { StateCounts (D.faults device.old) (D.faults device.new) result }
    ensures wants { GrowsFirst (D.told device.new ≡ D.told device.old) (D.wants device.old) (D.wants device.new) result }
    ensures begun { D.begun device.new ≡ true }
{
    let mut buf = [0; PIECE];
    while bytes.len() < most {
        let room = (most - bytes.len()).min(PIECE);
        let at = bytes.len() as u64;
        match device.read_at(area, at, &mut buf[..room]) {
            AreaRead::Got(0) => return Ok(()),
            AreaRead::Got(n) => bytes.extend_from_slice(&buf[..n])?,
            AreaRead::Failed => return Err(StateFault::Store),
            AreaRead::Memory => return Err(StateFault::Memory),
        }
    }
    Ok(())
}

/// Reads the front of an area, at most so many bytes.
pub fn read_front<D: Device>(
    alloc: Global,
    device: &mut D,
    area: u8,
    most: usize,
) -> Result<Vec<u8>, StateFault>
    requires begun { D.begun device.old ≡ true }
    requires area { area < 3 }
    ensures front { IfOk result (λ bytes. IfSome (D.told device.old) (λ told. bytes.items ≡ take most (area_at told.disk area).bytes)) }
    ensures len { IfOk result (λ bytes. vec_len bytes ≤ most) }
    ensures same { OnOk result (D.told device.new ≡ D.told device.old) }
    ensures stopped { OnErr result (StoppedIn (D.told device.old) (D.told device.new) []) }
    ensures causes { StateCounts (D.faults device.old) (D.faults device.new) result }
    ensures wants { GrowsFirst (D.told device.new ≡ D.told device.old) (D.wants device.old) (D.wants device.new) result }
    ensures begun { D.begun device.new ≡ true }
{
    let mut bytes = Vec::new(alloc);
    read_on(device, area, &mut bytes, most)?;
    Ok(bytes)
}
