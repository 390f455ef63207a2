use vst_base::{ClientId, ReqId};

/// What a client asks of a cluster, over commands of a machine.
#[derive(Debug, Drop, PartialEq, Eq)]
pub struct RaftInput<C> {
    pub client: ClientId,
    pub request: ReqId,
    pub cmd: C,
}

/// What a client is told of a request, over outputs of a machine.
#[derive(Debug, Drop, PartialEq, Eq)]
pub enum RaftOut<O> {
    /// The machine's output.
    Reply {
        client: ClientId,
        request: ReqId,
        output: O,
    },
    /// The node is not the leader.
    NotLeader {
        client: ClientId,
        request: ReqId,
    },
    /// The leader's log is full.
    Full {
        client: ClientId,
        request: ReqId,
    },
}
