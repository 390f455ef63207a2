use vst_base::{Key, Value};

/// What a command answers: its key, and the key's value after the command and before it.
#[derive(Debug, Drop, PartialEq, Eq)]
pub struct KvOut {
    pub key: Key,
    pub after: Option<Value>,
    pub before: Option<Value>,
}
