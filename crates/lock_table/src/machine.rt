ghost use Rattle.std.specs.Prelude.{◌≡◌, IfOk, IsOk};
ghost use Rattle.lock_table.specs.Reading.{reads_leave};
ghost use Rattle.lock_table.specs.Table.{is_read, table};

use crate::rules::{acquires, releases, tells};
use crate::{TableCmd, TableOut, TableState};
use key_map::copy_token;
use std::alloc::{AllocError, Global};
use vst_base::{Machine, Queries};

/// The table of named locks. A command costs a hash look-up or two.
#[derive(Drop)]
pub struct TableMachine;

impl Machine for TableMachine {
    type State = TableState;

    type Cmd = TableCmd;

    type Out = TableOut;

    ghost meaning = { λ _. table };

    fn init(&self, alloc: Global) -> Result<TableState, AllocError>
        ensures first { IfOk result (λ state. state ≡ table.init) }
        ensures succeeds { IsOk result }
    {
        Ok(TableState::new(alloc))
    }

    fn apply(
        &self,
        alloc: Global,
        state: &mut TableState,
        cmd: &TableCmd,
    ) -> Result<TableOut, AllocError> {
        match cmd {
            TableCmd::Acquire(name, owner) => acquires(alloc, state, name, owner),
            TableCmd::Release(name, owner) => releases(alloc, state, name, owner),
            TableCmd::Holder(name) => tells(alloc, state, name),
        }
    }

    fn copy_cmd(&self, alloc: Global, cmd: &TableCmd) -> Result<TableCmd, AllocError> {
        Ok(match cmd {
            TableCmd::Acquire(name, owner) => {
                TableCmd::Acquire(name.copy(alloc)?, owner.copy(alloc)?)
            }
            TableCmd::Release(name, owner) => {
                TableCmd::Release(name.copy(alloc)?, owner.copy(alloc)?)
            }
            TableCmd::Holder(name) => TableCmd::Holder(name.copy(alloc)?),
        })
    }

    fn copy_out(&self, alloc: Global, out: &TableOut) -> Result<TableOut, AllocError> {
        Ok(TableOut {
            name: out.name.copy(alloc)?,
            holder: copy_token(alloc, out.holder.as_ref())?,
            yes: out.yes,
        })
    }
}

impl Queries for TableMachine {
    ghost reads = { λ _ c. is_read c };

    fn is_read(&self, cmd: &TableCmd) -> bool {
        matches!(cmd, TableCmd::Holder(_))
    }

    ghost leaves = { λ _ s c read. reads_leave s c read };
}
