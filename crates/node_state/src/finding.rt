ghost use Rattle.std.specs.Prelude.{◌≡◌, ◌<◌, true, [], IfOk, IfSome, OnErr, OnOk};
ghost use Rattle.disk.specs.Areas.{area_at};
ghost use Rattle.node_body.specs.Bodies.{VoteAmong};
ghost use Rattle.node_device.specs.Telling.{StoppedIn};
ghost use Rattle.node_state.specs.Calls.{GrowsFirst, StateCounts};
ghost use Rattle.node_state.specs.Fronts.{FoundByFront, IsByNeed};

use crate::reading::PIECE;
use crate::{StateFault, read_on};
use node_body::{Commands, Held, Who, Why, find_in_front, find_slot};
use node_device::Device;
use std::alloc::Global;

/// What the slot in an area is for a node that asks, by its front, and how many bytes that has. The slot is read, and held, until
/// what was read decides what it is: a piece first, and then each time as many bytes more. So of what the first closed gate hides at
/// most the rest of the first piece is read, or as many bytes as stand before it. A slot that no front decides is read to the end.
pub fn find_in_area<D: Device, C: Commands>(
    alloc: Global,
    device: &mut D,
    who: &Who,
    area: u8,
) -> Result<(usize, Result<Held<C>, Why>), StateFault>
    requires begun { D.begun device.old ≡ true }
    requires area { area < 3 }
    ensures found { IfOk result (λ p. IfSome (D.told device.old) (λ told.
        FoundByFront C.stack C.format who.now (area_at told.disk area).bytes p.0 p.1)) }
    ensures need { IfOk result (λ p. IfSome (D.told device.old) (λ told.
        IsByNeed C.stack C.format who.now (area_at told.disk area).bytes p.0)) }
    ensures len { IfOk result (λ p. p.0 < 9223372036854775808) }
    ensures voted { IfOk result (λ p. IfOk p.1 (λ held. VoteAmong who.now.nodes held.journal.kept.voted)) }
    ensures same { OnOk result (D.told device.new ≡ D.told device.old) }
    ensures stopped { OnErr result (StoppedIn (D.told device.old) (D.told device.new) []) }
    ensures causes { StateCounts (D.faults device.old) (D.faults device.new) result }
    ensures wants { GrowsFirst (D.told device.new ≡ D.told device.old) (D.wants device.old) (D.wants device.new) result }
    ensures begun { D.begun device.new ≡ true }
{
    let mut bytes = Vec::new(alloc);
    let mut most = PIECE;
    loop {
        read_on(device, area, &mut bytes, most)?;
        if bytes.len() < most {
            let found = find_slot::<C>(alloc, who, &bytes)?;
            return Ok((bytes.len(), found));
        }
        if let Some(found) = find_in_front::<C>(alloc, who, &bytes)? {
            return Ok((bytes.len(), found));
        }
        most *= 2;
    }
}
