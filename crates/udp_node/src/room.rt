ghost use Rattle.std.specs.Prelude.{◌≡◌, IfOk, vec_len};
ghost use Rattle.node_device.specs.declared.limits.TheConstants.{RECEIVE_BUFFER};

use node_device::RECEIVE_BUFFER;
use std::alloc::{AllocError, Global};

// Room for the datagram that is received, and for the one that is sent.
#[derive(Drop)]
pub(crate) struct Room {
    pub(crate) received: Vec<u8>,
    pub(crate) datagram: Vec<u8>,
}

impl Room {
    pub(crate) fn new(alloc: Global) -> Result<Self, AllocError>
        ensures received { IfOk result (λ room. vec_len room.received ≡ RECEIVE_BUFFER) }
    {
        Ok(Room {
            received: vec![in alloc; 0; RECEIVE_BUFFER]?,
            datagram: Vec::new(alloc),
        })
    }
}
