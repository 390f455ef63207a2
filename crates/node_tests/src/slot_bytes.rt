use node_body::Who;
use std::alloc::{AllocError, Global};
use vst_base::StackId;

// Slots whose bytes an independent reference worked out, of node 0 of three of the cluster whose name is the bytes 0 to 15.
pub const NAME: [u8; 16] = [0, 1, 2, 3, 4, 5, 6, 7, 8, 9, 10, 11, 12, 13, 14, 15];

pub const WHO: Who = Who {
    stack: StackId::KvRaft,
    me: 0,
    nodes: 3,
    name: NAME,
};

pub const OLD_FIRST: [u8; 22] = [
    0, 0, 0, 18, 83, 1, 5, 0, 3, 0, 0, 0, 0, 0, 0, 0, 0, 255, 0, 0, 0, 0,
];

pub const OLD_VOTED: [u8; 22] = [
    0, 0, 0, 18, 83, 1, 5, 0, 3, 0, 0, 0, 0, 0, 0, 0, 1, 1, 0, 0, 0, 0,
];

// In term 1, with a vote for node 1 and one entry: put a x, the request 1 of client 7, which node 0 took.
pub const OLD_PUT: [u8; 53] = [
    0, 0, 0, 49, 83, 1, 5, 0, 3, 0, 0, 0, 0, 0, 0, 0, 1, 1, 0, 0, 0, 1, 0, 0, 0, 0, 0, 0, 0, 1, 0,
    0, 0, 0, 0, 0, 0, 7, 0, 0, 0, 0, 0, 0, 0, 1, 0, 2, 1, 97, 0, 1, 120,
];

// The same state as a base.
pub const PUT: [u8; 71] = [
    0, 0, 0, 66, 83, 2, 5, 0, 3, 0, 1, 2, 3, 4, 5, 6, 7, 8, 9, 10, 11, 12, 13, 14, 15, 0, 0, 0, 0,
    0, 0, 0, 1, 1, 0, 0, 0, 1, 0, 0, 0, 0, 0, 0, 0, 1, 1, 0, 0, 0, 0, 0, 0, 0, 7, 0, 0, 0, 0, 0, 0,
    0, 1, 0, 2, 1, 97, 0, 1, 120, 0,
];

pub const FRESH: [u8; 39] = [
    0, 0, 0, 34, 83, 2, 5, 0, 3, 0, 1, 2, 3, 4, 5, 6, 7, 8, 9, 10, 11, 12, 13, 14, 15, 0, 0, 0, 0,
    0, 0, 0, 0, 255, 0, 0, 0, 0, 0,
];

pub const VOTED: [u8; 39] = [
    0, 0, 0, 34, 83, 2, 5, 0, 3, 0, 1, 2, 3, 4, 5, 6, 7, 8, 9, 10, 11, 12, 13, 14, 15, 0, 0, 0, 0,
    0, 0, 0, 1, 1, 0, 0, 0, 0, 0,
];

// The first state, a record of a vote in term 1, and a closed gate.
pub const VOTED_IN_A_RECORD: [u8; 57] = [
    0, 0, 0, 34, 83, 2, 5, 0, 3, 0, 1, 2, 3, 4, 5, 6, 7, 8, 9, 10, 11, 12, 13, 14, 15, 0, 0, 0, 0,
    0, 0, 0, 0, 255, 0, 0, 0, 0, 1, 0, 0, 0, 0, 0, 0, 0, 1, 1, 0, 0, 0, 0, 0, 0, 0, 0, 0,
];

// The first state in a slot of version 1, and these bytes after it.
pub fn old_first_and(alloc: Global, more: &[u8]) -> Result<Vec<u8>, AllocError> {
    let mut slot = Vec::from_slice(alloc, &OLD_FIRST)?;
    slot.extend_from_slice(more)?;
    Ok(slot)
}
