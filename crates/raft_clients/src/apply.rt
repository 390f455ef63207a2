ghost use Rattle.std.specs.Prelude.{◌≡◌, None, IfOk, IsOk};
ghost use Rattle.raft_clients.specs.Sessions.{Makes, applied, executes, kept_output};
ghost use Rattle.raft_types.specs.declared.client.RaftInput.{RaftInput};

use crate::{Session, Sessions};
use std::alloc::{AllocError, Global};
use vst_base::{ClientId, Entry, Machine, ReqId, What};

// A copy of the kept output, for the request that it was the output of.
fn copy_kept<M: Machine>(
    alloc: Global,
    machine: &M,
    session: &Session<M::Out>,
    request: ReqId,
) -> Result<Option<M::Out>, AllocError>
    ensures output { IfOk result (λ output. output ≡ kept_output session.now request) }
    ensures none { kept_output session.now request ≡ None → IsOk result }
{
    if request != session.request {
        return Ok(None);
    }
    Ok(Some(machine.copy_out(alloc, &session.output)?))
}

// The machine takes the command, and the session is the client's from now on.
fn execute<M: Machine>(
    alloc: Global,
    machine: &M,
    state: &mut M::State,
    sessions: &mut Sessions<M::Out>,
    client: ClientId,
    request: ReqId,
    cmd: &M::Cmd,
) -> Result<Option<M::Out>, AllocError>
    ensures { let asked : RaftInput M.Cmd = record { client = client; request = request; cmd = cmd.now } in
        IfOk result (Makes (executes (M.meaning machine.now) state.old sessions.old asked) state.new sessions.new) }
{
    let told = machine.apply(alloc, state, cmd)?;
    let output = machine.copy_out(alloc, &told)?;
    sessions.keep(client, Session { request, output })?;
    Ok(Some(told))
}

/// Applies an entry of the log (the extended Raft paper, section 8). A no-op does nothing, and nobody is
/// answered. A request over its client's last one is executed, and its output kept; the last one again is
/// answered with the output that was kept; an earlier one is not answered. What a request asks for is not
/// compared.
///
/// After an `Err` state and sessions are given up. An entry that is not answered takes no memory.
pub fn apply_entry<M: Machine>(
    alloc: Global,
    machine: &M,
    state: &mut M::State,
    sessions: &mut Sessions<M::Out>,
    entry: &Entry<M::Cmd>,
) -> Result<Option<M::Out>, AllocError>
    ensures does { IfOk result (Makes (applied (M.meaning machine.now) state.old sessions.old entry.now) state.new sessions.new) }
    ensures not_answered { (applied (M.meaning machine.now) state.old sessions.old entry.now).output ≡ None → IsOk result }
{
    match entry.what() {
        What::Noop => Ok(None),
        What::Request {
            client,
            request,
            cmd,
            ..
        } => match sessions.get(*client) {
            Some(session) if !session.is_passed_by(*request) => {
                copy_kept(alloc, machine, session, *request)
            }
            _ => execute(alloc, machine, state, sessions, *client, *request, cmd),
        },
    }
}
