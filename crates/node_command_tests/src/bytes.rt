// Bytes of a cluster of three whose name is the bytes 0 to 15 and whose node 0 is at port 7000. An independent reference worked them out.

/// The configuration of such a cluster.
pub const KV: &[u8] = br#"stack = "kv/raft"
peers = ["127.0.0.1:7000", "127.0.0.1:7001", "127.0.0.1:7002"]
clients = []
heartbeat_ms = 50
election_ms = 300
cluster = "000102030405060708090a0b0c0d0e0f"
"#;

/// The name of such a cluster.
pub const NAME: [u8; 16] = [0, 1, 2, 3, 4, 5, 6, 7, 8, 9, 10, 11, 12, 13, 14, 15];

/// No datagram.
pub const SHORT: &[u8] = b"V\x02\x05\0\x01";

/// The heading of what node 1 sends to node 0.
pub const HEADING: &[u8] =
    b"V\x02\x05\0\x01\0\0\x01\x02\x03\x04\x05\x06\x07\x08\x09\x0A\x0B\x0C\x0D\x0E\x0F";

/// Node 1 asks node 0 for its vote in term 1.
pub const ASKED: &[u8] =
    b"V\x02\x05\0\x01\0\0\x01\x02\x03\x04\x05\x06\x07\x08\x09\x0A\x0B\x0C\x0D\x0E\x0F\x01\0\0\0\0\0\0\0\x01\0\0\0\0\0\0\0\0\0\0\0\0";

/// What comes in three turns, each from a port: bytes that are no datagram, the question from an address that is not that of node 1, and
/// the question from node 1.
pub const ASKS: &[(u16, &[u8])] = &[(7001, SHORT), (9, ASKED), (7001, ASKED)];

/// Node 0 votes for node 1 in term 1.
pub const VOTE: &[u8] =
    b"V\x02\x05\0\0\x01\0\x01\x02\x03\x04\x05\x06\x07\x08\x09\x0A\x0B\x0C\x0D\x0E\x0F\x02\0\0\0\0\0\0\0\x01\x01";

/// The first state.
pub const FRESH: &[u8] =
    b"\0\0\0\x22S\x02\x05\0\x03\0\x01\x02\x03\x04\x05\x06\x07\x08\x09\x0A\x0B\x0C\x0D\x0E\x0F\0\0\0\0\0\0\0\0\xFF\0\0\0\0\0";
