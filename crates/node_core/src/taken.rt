ghost use Rattle.std.specs.Prelude.{◌≡◌, ◌≢◌, true, IfOk, IfSome, OnErr, OnOk};
ghost use Rattle.disk.specs.Disk.{Image, may_hold};
ghost use Rattle.node_acts.specs.StateActs.{state_acts, store_after};
ghost use Rattle.node_acts.specs.Stores.{Holds, found_by};
ghost use Rattle.node_core.specs.Replicas.{IsReady, IsTaken, kept_of};
ghost use Rattle.node_device.specs.Telling.{Did, StoppedIn, WhereTold};
ghost use Rattle.node_state.specs.Calls.{StateCounts};
ghost use Rattle.node_state.specs.Crashes.{IsHeldBefore, LeavesEither, Saves};
ghost use Rattle.slots.specs.Opening.{OpensAs};

use crate::Replica;
use crate::saved::Saved;
use handler_trait::Effects;
use node_body::Commands;
use node_device::Device;
use node_state::{StateFault, save_change};
use raft_types::{RaftMsg, RaftOut};
use std::alloc::Global;

/// A node that has taken an event, and has yet to make durable what it keeps after it.
#[derive(Drop)]
pub struct Taken<S, C, O> {
    pub(crate) replica: Replica<S, C, O>,
    pub(crate) effects: Effects<RaftOut<O>, RaftMsg<C>>,
    // how many entries are known to be held
    pub(crate) same: usize,
}

impl<S: Drop, C: Commands, O: Drop> Taken<S, C, O> {
    /// Makes durable what the node keeps. It costs as much as the entries that are new, but for a base of the journal. An `Err` gives
    /// the node up: its areas are opened again before any save.
    pub fn save<D: Device>(
        self,
        alloc: Global,
        device: &mut D,
    ) -> Result<Saved<S, C, O>, StateFault>
        requires begun { D.begun device.old ≡ true }
        requires taken { IsTaken C.stack self }

        // The areas hold a state that this one continues.
        requires held { IfSome (D.told device.old)
            (IsHeldBefore C.stack C.format self.replica.store (kept_of self.replica.state)) }

        ensures ready { IfOk result (λ saved. IsReady C.stack saved.replica) }
        ensures replica { IfOk result (λ saved. saved.replica ≡ record self.replica {
          store = store_after C.stack C.format self.replica.store (kept_of self.replica.state);
        }) }
        ensures effects { IfOk result (λ saved. saved.effects ≡ self.effects) }
        ensures did { OnOk result (Did (D.told device.old) (D.told device.new)
            (state_acts C.stack C.format self.replica.store (kept_of self.replica.state))) }
        ensures stopped { OnErr result (StoppedIn (D.told device.old) (D.told device.new)
            (state_acts C.stack C.format self.replica.store (kept_of self.replica.state))) }
        ensures holds { IfOk result (λ saved. IfSome (D.told device.new) (λ told.
            Holds C.stack C.format saved.replica.store (kept_of saved.replica.state) told.disk)) }

        // Each image that a crash may then leave opens as what the node keeps.
        ensures opens { IfOk result (λ saved. IfSome (D.told device.new) (λ told. (image : Image) → may_hold told.disk image ≡ true
            → OpensAs (found_by C.stack C.format saved.replica.store.who) (kept_of saved.replica.state) image)) }

        ensures keeps { OnOk result (IfSome (D.told device.old)
            (Saves C.stack C.format self.replica.store (kept_of self.replica.state))) }
        ensures crash { WhereTold (D.told device.old) (D.told device.new)
            (LeavesEither C.stack C.format self.replica.store (kept_of self.replica.state)) }
        ensures causes { StateCounts (D.faults device.old) (D.faults device.new) result }
        ensures begun { D.begun device.new ≡ true }
    {
        let Taken {
            replica,
            effects,
            same,
        } = self;
        let Replica {
            state,
            deadline,
            time,
            mut store,
        } = replica;
        let log = state.log();
        save_change::<D, C>(
            alloc,
            &mut store,
            device,
            state.term(),
            state.voted(),
            log,
            same,
        )?;
        let replica = Replica {
            state,
            deadline,
            time,
            store,
        };
        Ok(Saved { replica, effects })
    }
}
