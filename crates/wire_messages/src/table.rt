ghost use Rattle.wire_messages.specs.TableBytes.{table_command, table_output};
ghost use Rattle.wire_messages.specs.TableByteLaws.{table_command_is_format, table_output_is_format};

use crate::Wire;
use lock_table::{TableCmd, TableOut};
use std::alloc::{AllocError, Global};
use vst_base::Key;
use wire_fields::{Input, put_flag, put_key, put_kind_and_key};

impl Wire for TableCmd {
    ghost format = { table_command };

    #[tactic(auto, using(wire_fields::specs::Fronts::front_stays))]
    fn put(&self, out: &mut Vec<u8>) -> Result<(), AllocError> {
        match self {
            TableCmd::Acquire(name, owner) => {
                put_kind_and_key(out, 1, name)?;
                put_key(out, owner)
            }
            TableCmd::Release(name, owner) => {
                put_kind_and_key(out, 2, name)?;
                put_key(out, owner)
            }
            TableCmd::Holder(name) => put_kind_and_key(out, 3, name),
        }
    }

    fn take(alloc: Global, input: &mut Input<'_>) -> Result<Option<TableCmd>, AllocError> {
        match input.byte() {
            Some(1) => match <(Key, Key)>::take(alloc, input)? {
                Some((name, owner)) => Ok(Some(TableCmd::Acquire(name, owner))),
                None => Ok(None),
            },
            Some(2) => match <(Key, Key)>::take(alloc, input)? {
                Some((name, owner)) => Ok(Some(TableCmd::Release(name, owner))),
                None => Ok(None),
            },
            Some(3) => match Key::take(alloc, input)? {
                Some(name) => Ok(Some(TableCmd::Holder(name))),
                None => Ok(None),
            },
            _ => Ok(None),
        }
    }

    ghost is_format = { table_command_is_format };
}

impl Wire for TableOut {
    ghost format = { table_output };

    #[tactic(auto, using(wire_fields::specs::Fronts::front_stays))]
    fn put(&self, out: &mut Vec<u8>) -> Result<(), AllocError> {
        self.name.put(out)?;
        self.holder.put(out)?;
        put_flag(out, self.yes)
    }

    fn take(alloc: Global, input: &mut Input<'_>) -> Result<Option<TableOut>, AllocError> {
        let Some((name, holder)) = <(Key, Option<Key>)>::take(alloc, input)? else {
            return Ok(None);
        };
        let Some(yes) = input.flag() else {
            return Ok(None);
        };
        Ok(Some(TableOut { name, holder, yes }))
    }

    ghost is_format = { table_output_is_format };
}
