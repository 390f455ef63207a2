use node_state::Store;
use raft_xform::RaftState;

/// What a node has between its calls: its state, when its timer is to fire, when its present turn began, in milliseconds of its device's
/// clock, and what it knows of its areas.
#[derive(Drop)]
pub struct Replica<S, C, O> {
    pub(crate) state: RaftState<S, C, O>,
    pub(crate) deadline: u64,
    pub(crate) time: u64,
    pub(crate) store: Store,
}
