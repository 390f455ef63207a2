/// What a turn begins with.
#[derive(Clone, Copy, Debug, PartialEq, Eq)]
pub enum Due {
    /// The node's timer fires.
    Timeout,
    /// The node waits for a datagram, so many milliseconds at most: 1 to 60,000.
    Wait(u32),
}
