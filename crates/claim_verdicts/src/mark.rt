/// When a request of an order was first put in.
#[derive(Clone, Copy, Debug, PartialEq, Eq)]
pub(crate) enum Mark {
    /// Never.
    Unseen,
    /// Before a client was told the output of it, or of one after it.
    InTime,
    /// After that.
    Late,
}
