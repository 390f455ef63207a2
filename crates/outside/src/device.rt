/// Where a node listens: an IPv4 address and a port.
#[derive(Clone, Copy, Debug, PartialEq, Eq)]
pub struct Address {
    pub ip: [u8; 4],
    pub port: u16,
}

/// What beginning came to.
#[derive(Clone, Copy, Debug, PartialEq, Eq)]
pub enum Begun {
    /// The device listens at its address, and its directory is open.
    Ready,
    /// The device could not begin.
    Failed,
    /// Want of memory: nothing was done, and no count of faults rose.
    Memory,
}
