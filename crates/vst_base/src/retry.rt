/// A packet of handlers that send again what is not acknowledged: data with its number, or the acknowledgement of a number. Each
/// sender numbers its data 0, 1, 2 and so on, over all destinations together, in the order in which they were first sent.
#[derive(Debug, Drop, PartialEq, Eq)]
pub enum RetryMsg<M> {
    Data { number: u64, inner: M },
    Ack { number: u64 },
}
