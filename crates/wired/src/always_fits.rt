ghost use Rattle.std.specs.Prelude.{◌≤◌, length};
ghost use Rattle.node_body.specs.CommandLengths.{kv_length, table_length};
ghost use Rattle.node_body.specs.declared.commands.TheConstants.{MAX_COMMAND};
ghost use Rattle.wire_fields.specs.Fields.{key, value};

use kv_machine::KvCmd;
use lock_table::TableCmd;
use vst_base::{Key, Value};
use wire_messages::Wire;

/// Commands of which each value has bytes, and no more than `MAX_COMMAND`.
pub trait AlwaysFits: Wire {
    /// It has bytes.
    fn fits(&self)
        ensures { Self.format.Fits self.now };

    /// No value has more bytes.
    ghost short: { (c : Self) → Self.format.Fits c → length (Self.format.spell c) ≤ MAX_COMMAND };
}

// A key has bytes.
fn key_fits(token: &Key)
    ensures { key.Fits token.now }
{
    token.as_bytes();
}

// A value has bytes.
pub(crate) fn value_fits(token: &Value)
    ensures { value.Fits token.now }
{
    token.as_bytes();
}

impl AlwaysFits for KvCmd {
    fn fits(&self) {
        match self {
            KvCmd::Get(key) | KvCmd::Del(key) => key_fits(key),
            KvCmd::Put(key, value) | KvCmd::Cad(key, value) => {
                key_fits(key);
                value_fits(value);
            }
            KvCmd::Cas(key, expected, value) => {
                key_fits(key);
                if let Some(expected) = expected {
                    value_fits(expected);
                }
                value_fits(value);
            }
        }
    }

    ghost short = { kv_length };
}

impl AlwaysFits for TableCmd {
    fn fits(&self) {
        match self {
            TableCmd::Acquire(name, owner) | TableCmd::Release(name, owner) => {
                key_fits(name);
                key_fits(owner);
            }
            TableCmd::Holder(name) => key_fits(name),
        }
    }

    ghost short = { table_length };
}
