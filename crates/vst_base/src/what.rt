use crate::{ClientId, Node, ReqId};

/// What an entry of a log holds, over commands of a machine.
#[derive(Debug, Drop, PartialEq, Eq)]
pub enum What<C> {
    /// Nothing: a new leader's own entry, with which those of earlier terms are committed (the Raft paper,
    /// section 8).
    Noop,
    /// A client's request: the client, its number of the request, the node that took it from the client and
    /// answers it, and what the machine is asked to do.
    Request {
        client: ClientId,
        request: ReqId,
        origin: Node,
        cmd: C,
    },
}
