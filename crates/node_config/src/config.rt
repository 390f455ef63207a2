use crate::Addresses;
use vst_base::StackId;
use wire_fields::NAME_LEN;

/// What a node is told as it starts.
#[derive(Debug, Drop)]
pub struct Config {
    /// The stack that it runs: the key-value store or the table of named locks under Raft.
    pub stack: StackId,
    /// Which of the peers it is, from 0.
    pub me: u8,
    /// The addresses of the nodes of its cluster, 1 to 9, node 0 first.
    pub peers: Addresses,
    /// The addresses of its clients, at most 255, slot 0 first. Each differs from each other and from those of the peers.
    pub clients: Addresses,
    /// How long a leader waits before it sends to its followers again, 1 to 60,000 ms.
    pub heartbeat_ms: u32,
    /// How long another node waits for a leader before it becomes a candidate, 1 to 60,000 ms.
    pub election_ms: u32,
    /// The name of the cluster.
    pub cluster: [u8; NAME_LEN],
}
