/// What a client of the lock server asks for.
#[derive(Clone, Copy, Debug, PartialEq, Eq)]
pub enum LockInput {
    Lock,
    Unlock,
}

/// What a client of the lock server is told.
#[derive(Clone, Copy, Debug, PartialEq, Eq)]
pub enum LockOutput {
    /// The lock is its own from now on.
    Locked,
}

/// A message between a client and the lock server.
#[derive(Clone, Copy, Debug, PartialEq, Eq)]
pub enum LockMsg {
    /// A client asks for the lock.
    Lock,
    /// A client gives the lock back.
    Unlock,
    /// The server hands the lock to a client.
    Locked,
}
