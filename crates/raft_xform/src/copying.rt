ghost use Rattle.std.specs.Prelude.{◌≡◌, IfOk};

use raft_log::copy_entries;
use raft_types::{Append, Entries, RaftMsg};
use std::alloc::{AllocError, Global};
use vst_base::Machine;

// An equal message of a leader's entries. The machine copies their commands.
fn copy_append<M: Machine>(
    alloc: Global,
    machine: &M,
    append: &Append<M::Cmd>,
) -> Result<Append<M::Cmd>, AllocError>
    ensures { IfOk result (λ copy. copy ≡ append.now) }
{
    let entries = copy_entries(alloc, machine, append.entries())?;
    Ok(Append::new(
        append.term(),
        append.prev_index(),
        append.prev_term(),
        append.commit(),
        Entries::new(entries),
    ))
}

/// An equal message. The machine copies the commands of its entries.
pub(crate) fn copy_message<M: Machine>(
    alloc: Global,
    machine: &M,
    message: &RaftMsg<M::Cmd>,
) -> Result<RaftMsg<M::Cmd>, AllocError>
    ensures { IfOk result (λ copy. copy ≡ message.now) }
{
    Ok(match message {
        RaftMsg::RequestVote(request) => RaftMsg::RequestVote(*request),
        RaftMsg::Vote(vote) => RaftMsg::Vote(*vote),
        RaftMsg::Append(append) => RaftMsg::Append(copy_append(alloc, machine, append)?),
        RaftMsg::Appended(appended) => RaftMsg::Appended(*appended),
    })
}
