use vst_base::{Key, Value};

/// What a client asks of the store.
#[derive(Debug, Drop, PartialEq, Eq)]
pub enum KvCmd {
    /// The value of the key.
    Get(Key),
    /// The key has the value from now on.
    Put(Key, Value),
    /// The key has no value from now on.
    Del(Key),
    /// Compare and set: the key has the last value from now on, if it has the expected one, or none
    /// where none is expected.
    Cas(Key, Option<Value>, Value),
    /// Compare and delete: the key has no value from now on, if it has this one.
    Cad(Key, Value),
}
