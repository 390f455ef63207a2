ghost use Rattle.std.specs.Prelude.{◌≡◌, true, [], ◌∷◌, OnErr, OnOk};
ghost use Rattle.node_device.specs.Telling.{Did, StoppedIn};
ghost use Rattle.node_state.specs.Calls.{DeviceWants, StateCounts};
ghost use Rattle.slots.specs.Saving.{sync_acts};
ghost use Rattle.store_acts.specs.StoreActs.{act_of, acts_of};

use crate::StateFault;
use crate::faults::done;
use node_device::Device;
use store_acts::StoreAct;

// Makes an act on the areas.
fn make<D: Device>(device: &mut D, act: &StoreAct) -> Result<(), StateFault>
    requires begun { D.begun device.old ≡ true }
    ensures did { OnOk result (Did (D.told device.old) (D.told device.new) (act_of act.now ∷ [])) }
    ensures stopped { OnErr result (StoppedIn (D.told device.old) (D.told device.new) (act_of act.now ∷ [])) }
    ensures causes { StateCounts (D.faults device.old) (D.faults device.new) result }
    ensures wants { DeviceWants (D.wants device.old) (D.wants device.new) result }
    ensures begun { D.begun device.new ≡ true }
{
    match act {
        StoreAct::Write(area, at, bytes) => done(device.write_at(area.number(), *at, bytes)),
        StoreAct::Cut(area, len) => done(device.cut(area.number(), *len)),
        StoreAct::Sync(area) => done(device.sync(area.number())),
    }
}

/// Makes acts on the areas, one after another.
pub fn make_acts<D: Device>(device: &mut D, acts: &[StoreAct]) -> Result<(), StateFault>
    requires begun { D.begun device.old ≡ true }
    ensures did { OnOk result (Did (D.told device.old) (D.told device.new) (acts_of acts.now)) }
    ensures stopped { OnErr result (StoppedIn (D.told device.old) (D.told device.new) (acts_of acts.now)) }
    ensures causes { StateCounts (D.faults device.old) (D.faults device.new) result }
    ensures wants { DeviceWants (D.wants device.old) (D.wants device.new) result }
    ensures begun { D.begun device.new ≡ true }
{
    for act in acts {
        make(device, act)?;
    }
    Ok(())
}

/// Brings each area to the disk.
pub fn sync_all<D: Device>(device: &mut D) -> Result<(), StateFault>
    requires begun { D.begun device.old ≡ true }
    ensures did { OnOk result (Did (D.told device.old) (D.told device.new) sync_acts) }
    ensures stopped { OnErr result (StoppedIn (D.told device.old) (D.told device.new) sync_acts) }
    ensures causes { StateCounts (D.faults device.old) (D.faults device.new) result }
    ensures wants { DeviceWants (D.wants device.old) (D.wants device.new) result }
    ensures begun { D.begun device.new ≡ true }
{
    done(device.sync(0))?;
    done(device.sync(1))?;
    done(device.sync(2))
}
