ghost use Rattle.std.specs.Prelude.{◌≡◌, IfOk};

use std::alloc::{AllocError, Global};
use vst_base::{Entry, Machine, What};

// The same content of an entry. The machine copies the command.
fn copy_what<M: Machine>(
    alloc: Global,
    machine: &M,
    what: &What<M::Cmd>,
) -> Result<What<M::Cmd>, AllocError>
    ensures { IfOk result (λ copy. copy ≡ what.now) }
{
    match what {
        What::Noop => Ok(What::Noop),
        What::Request {
            client,
            request,
            origin,
            cmd,
        } => Ok(What::Request {
            client: *client,
            request: *request,
            origin: *origin,
            cmd: machine.copy_cmd(alloc, cmd)?,
        }),
    }
}

/// An equal entry. The machine copies the command.
pub fn copy_entry<M: Machine>(
    alloc: Global,
    machine: &M,
    entry: &Entry<M::Cmd>,
) -> Result<Entry<M::Cmd>, AllocError>
    ensures { IfOk result (λ copy. copy ≡ entry.now) }
{
    let what = copy_what(alloc, machine, entry.what())?;
    Ok(Entry::new(entry.term(), what))
}

/// Equal entries, in order.
pub fn copy_entries<M: Machine>(
    alloc: Global,
    machine: &M,
    entries: &[Entry<M::Cmd>],
) -> Result<Vec<Entry<M::Cmd>>, AllocError>
    ensures { IfOk result (λ copies. copies.items ≡ entries.now) }
{
    let mut copies = Vec::with_capacity(alloc, entries.len())?;
    for entry in entries {
        copies.push(copy_entry(alloc, machine, entry)?)?;
    }
    Ok(copies)
}
