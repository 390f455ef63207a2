/// How many bytes a datagram is received in, at least. No datagram of UDP over IPv4 is longer, so none is cut.
pub const RECEIVE_BUFFER: usize = 65_536;
