ghost use Rattle.std.specs.Prelude.{◌≡◌, IfOk, OnOk};
ghost use Rattle.wired.specs.Wiring.{packet};

use crate::Cluster;
use std::alloc::{AllocError, Global};
use std::marker::Model;
use vst_base::Node;
use wire_codec::{Heading, Kind, encode_into};
use wire_messages::Wire;

// How many bytes a packet has room for from the first: those of an append with one put, of a key and a value with 18 bytes in all.
const ROOM: usize = 96;

/// What is sent in place of a message: the bytes of a datagram, or any others. Contracts see the bytes.
#[derive(Debug, Drop)]
pub struct Packet {
    bytes: Vec<u8>,
}

impl Model for Packet {
    ghost use Rattle.std.specs.Prelude.{ℕ, List};

    ghost Value = { List ℕ };

    ghost view = { λ p. p.bytes.items };
}

impl Packet {
    /// These bytes.
    pub fn new(bytes: Vec<u8>) -> Self
        ensures { result ≡ bytes.items }
    {
        Packet { bytes }
    }

    /// Its bytes.
    pub fn bytes(&self) -> &[u8]
        ensures { result.now ≡ self.now }
    {
        &self.bytes
    }

    /// An equal packet.
    pub fn copy(&self, alloc: Global) -> Result<Self, AllocError>
        ensures { IfOk result (λ copy. copy ≡ self.now) }
    {
        let bytes = self.bytes.to_vec(alloc)?;
        Ok(Packet { bytes })
    }

    /// The datagram of a message from one node to another.
    pub fn of_message<M: Wire>(
        alloc: Global,
        cluster: &Cluster,
        from: Node,
        to: Node,
        message: &M,
    ) -> Result<Self, AllocError>
        ensures spelled { IfOk result (λ p. p ≡ packet M.format cluster.now.stack cluster.now.name from to message.now) }
        ensures fits { OnOk result (M.format.Fits message.now) }
    {
        let heading = Heading {
            stack: cluster.stack,
            kind: Kind::Peer,
            from: from.index(),
            to: to.index(),
            name: cluster.name,
        };
        let mut bytes = Vec::with_capacity(alloc, ROOM)?;
        encode_into(&mut bytes, &heading, message)?;
        Ok(Packet { bytes })
    }
}
