ghost use Rattle.std.specs.Prelude.{◌≤◌, List, length, OnOk};
ghost use Rattle.raft_safety.specs.Applied.{applied_list, longer};
ghost use Rattle.vst_base.specs.declared.entry.Entry.{Entry as EntryView};
ghost use Rattle.applied_order.specs.Orders.{HasFollowed};
ghost use Rattle.lists.specs.Prefixes.{IsPrefix};

use crate::AppliedOrder;
use raft_xform::{Raft, RaftState};
use std::alloc::{AllocError, Global};
use vst_base::{Entry, Machine};

impl<C: Drop> AppliedOrder<C> {
    /// Adds of these entries, which are applied, those that stand after the ones that there are. After an `Err` the order is given up.
    pub fn grow<M: Machine<Cmd = C>>(
        &mut self,
        alloc: Global,
        machine: &M,
        applied: &[Entry<C>],
    ) -> Result<(), AllocError>
        requires { length applied.now ≤ u32.MAX }
        ensures { OnOk result ((all es : List (EntryView C)) → IsPrefix es all → IsPrefix applied.now all
            → HasFollowed self.old es → HasFollowed self.new (longer es applied.now)) }
    {
        for i in self.entries() as usize..applied.len() {
            self.add(alloc, machine, &applied[i])?;
        }
        Ok(())
    }

    /// Adds what a node has applied after the entries that there are. After an `Err` the order is given up.
    pub fn catch_up<M: Machine<Cmd = C>>(
        &mut self,
        alloc: Global,
        cluster: &Raft<M>,
        state: &RaftState<M::State, C, M::Out>,
    ) -> Result<(), AllocError>
        requires { state.now.applied ≤ length state.now.log }
        ensures { OnOk result ((all es : List (EntryView C)) → IsPrefix es all → IsPrefix (applied_list state.now) all
            → HasFollowed self.old es → HasFollowed self.new (longer es (applied_list state.now))) }
    {
        let applied = cluster.applied(state) as usize;
        self.grow(alloc, cluster.machine(), &state.log()[..applied])
    }
}
