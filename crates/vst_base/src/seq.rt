/// A message with a sequence number: each sender numbers all its packets 0, 1, 2 and so on, over all destinations
/// together, in the order of sending.
#[derive(Debug, Drop, PartialEq, Eq)]
pub struct SeqMsg<M> {
    pub number: u64,
    pub inner: M,
}
