use crate::Queue;

/// What a node remembers: node 0 the queue, another whether it holds the lock.
#[derive(Debug, Drop)]
pub enum LockState {
    Server(Queue),
    Client { held: bool },
}
