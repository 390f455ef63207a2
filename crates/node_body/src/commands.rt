ghost use Rattle.std.specs.Prelude.{◌≡◌, ◌≤◌, length};
ghost use Rattle.node_body.specs.CommandLengths.{kv_length, table_length};
ghost use Rattle.node_body.specs.LoggedLaws.{IsLogged, kv_is_logged, table_is_logged};
ghost use Rattle.node_body.specs.declared.commands.TheConstants.{MAX_COMMAND};
ghost use Rattle.vst_base.specs.declared.stack.StackId.{StackId};
ghost use Rattle.vst_base.specs.declared.stack.StackId.TheVariants as stack_id;

use kv_machine::KvCmd;
use lock_table::TableCmd;
use vst_base::StackId;
use wire_messages::Wire;

/// The greatest number of bytes of a command: a key and two values, with their lengths.
pub const MAX_COMMAND: usize = 2119;

/// The commands of a stack whose nodes keep logs of them.
pub trait Commands: Wire {
    /// The stack.
    ghost stack: { StackId };

    /// The stack.
    fn stack() -> StackId
        ensures { result ≡ stack };

    /// No command has more bytes.
    ghost short: { (c : Self) → Self.format.Fits c → length (Self.format.spell c) ≤ MAX_COMMAND };

    /// The stack has its line in the table of those whose nodes keep logs.
    ghost logged: { IsLogged stack Self.format };
}

impl Commands for KvCmd {
    ghost stack = { stack_id.KvRaft };

    fn stack() -> StackId {
        StackId::KvRaft
    }

    ghost short = { kv_length };

    ghost logged = { kv_is_logged };
}

impl Commands for TableCmd {
    ghost stack = { stack_id.TableRaft };

    fn stack() -> StackId {
        StackId::TableRaft
    }

    ghost short = { table_length };

    ghost logged = { table_is_logged };
}
