ghost use Rattle.std.specs.Prelude.{◌≡◌, ◌≤◌, true, length, IfOk, OnErr, OnOk};
ghost use Rattle.node_config.specs.declared.limits.TheConstants.{MAX_CLIENTS};
ghost use Rattle.node_core.specs.Replicas.{said_of};
ghost use Rattle.node_datagrams.specs.Saying.{HasBegunToSay, HasSaid, SendsOnly};
ghost use Rattle.node_device.specs.Telling.{WhereTold};

use crate::{Replica, Shipped};
use handler_trait::Effects;
use node_config::Config;
use node_datagrams::ship;
use node_device::Device;
use raft_types::{RaftMsg, RaftOut};
use std::alloc::AllocError;
use wire_messages::Wire;

/// A node whose areas hold what it keeps, and which has yet to ship what its event sends.
#[derive(Drop)]
pub struct Saved<S, C, O> {
    pub(crate) replica: Replica<S, C, O>,
    pub(crate) effects: Effects<RaftOut<O>, RaftMsg<C>>,
}

impl<S: Drop, C: Wire, O: Wire> Saved<S, C, O> {
    /// Ships the event's packets in order, and then what its outputs tell clients. A send that fails is a loss as any other. An `Err`,
    /// which says that memory was wanted, gives the node up: then a front of the datagrams went out. `bytes` is room for one datagram.
    pub fn ship<D: Device>(
        self,
        config: &Config,
        device: &mut D,
        bytes: &mut Vec<u8>,
    ) -> Result<Shipped<S, C, O>, AllocError>
        requires begun { D.begun device.old ≡ true }
        requires clients { length config.now.clients ≤ MAX_CLIENTS }
        ensures replica { IfOk result (λ shipped. shipped.replica ≡ self.replica) }
        ensures said { OnOk result (WhereTold (D.told device.old) (D.told device.new)
            (HasSaid (said_of config.now C.format O.format self.effects.sends self.effects.outputs))) }
        ensures stopped { OnErr result (WhereTold (D.told device.old) (D.told device.new)
            (HasBegunToSay (said_of config.now C.format O.format self.effects.sends self.effects.outputs))) }
        ensures counts { SendsOnly (D.faults device.old) (D.faults device.new) }
        ensures begun { D.begun device.new ≡ true }
    {
        let Saved { replica, effects } = self;
        ship(device, config, effects.sends(), effects.outputs(), bytes)?;
        Ok(Shipped { replica, effects })
    }
}
