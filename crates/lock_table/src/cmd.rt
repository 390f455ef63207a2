use vst_base::Key;

/// What a client asks of the table, by the name of a lock first.
#[derive(Debug, Drop, PartialEq, Eq)]
pub enum TableCmd {
    /// The owner, which stands second, holds the name from now on, if nobody does.
    Acquire(Key, Key),
    /// Nobody holds the name from now on, if this owner does.
    Release(Key, Key),
    /// Who holds the name.
    Holder(Key),
}
