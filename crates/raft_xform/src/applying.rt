ghost use Rattle.std.specs.Prelude.{◌≡◌, ◌≤◌, ◌<◌, ◌++◌, length, OnOk};
ghost use Rattle.handler_trait.specs.Handling.{Does};
ghost use Rattle.raft_clients.specs.Sessions.{applied_all};
ghost use Rattle.raft_xform.specs.Applying.{caught_up, replies, reply, settled};
ghost use Rattle.raft_xform.specs.Sound.{IsSoundNode};

use crate::RaftState;
use handler_trait::Effects;
use raft_clients::{Sessions, apply_entry};
use raft_commit::advance;
use raft_types::{RaftMsg, RaftOut};
use std::alloc::{AllocError, Global};
use vst_base::{Entry, Machine, Node, What};

// Tells the client of an entry its output, where this node took the request from it.
fn tell<C: Drop, O: Drop>(
    me: Node,
    what: &What<C>,
    output: O,
    effects: &mut Effects<RaftOut<O>, RaftMsg<C>>,
) -> Result<(), AllocError>
    ensures outputs { OnOk result (effects.new.outputs ≡ effects.old.outputs ++ reply me what.now output) }
    ensures sends { OnOk result (effects.new.sends ≡ effects.old.sends) }
    ensures room { OnOk result (effects.new.send_places ≡ effects.old.send_places) }
{
    match what {
        What::Request {
            client,
            request,
            origin,
            ..
        } if *origin == me => effects.output(RaftOut::Reply {
            client: *client,
            request: *request,
            output,
        }),
        _ => Ok(()),
    }
}

// Applies entries in order, and tells this node's clients the outputs of theirs.
fn apply_all<M: Machine>(
    alloc: Global,
    machine: &M,
    me: Node,
    entries: &[Entry<M::Cmd>],
    state: &mut M::State,
    sessions: &mut Sessions<M::Out>,
    effects: &mut Effects<RaftOut<M::Out>, RaftMsg<M::Cmd>>,
) -> Result<(), AllocError>
    ensures state { OnOk result (state.new ≡ (applied_all (M.meaning machine.now) state.old sessions.old entries.now).state) }
    ensures sessions { OnOk result (sessions.new ≡ (applied_all (M.meaning machine.now) state.old sessions.old entries.now).sessions) }
    ensures outputs { OnOk result (effects.new.outputs
        ≡ effects.old.outputs ++ replies me (applied_all (M.meaning machine.now) state.old sessions.old entries.now).answers) }
    ensures sends { OnOk result (effects.new.sends ≡ effects.old.sends) }
    ensures room { OnOk result (effects.new.send_places ≡ effects.old.send_places) }
{
    for entry in entries {
        if let Some(output) = apply_entry(alloc, machine, state, sessions, entry)? {
            tell(me, entry.what(), output, effects)?;
        }
    }
    Ok(())
}

/// Applies the entries that are committed and not applied (Figure 2, Rules for Servers).
pub(crate) fn catch_up<M: Machine>(
    alloc: Global,
    machine: &M,
    me: Node,
    state: &mut RaftState<M::State, M::Cmd, M::Out>,
    effects: &mut Effects<RaftOut<M::Out>, RaftMsg<M::Cmd>>,
) -> Result<(), AllocError>
    requires applied { state.old.applied ≤ state.old.commit }
    requires committed { state.old.commit ≤ length state.old.log }
    ensures does { OnOk result (Does (caught_up (M.meaning machine.now) me state.old) state.new effects.old effects.new) }
    ensures room { OnOk result (effects.new.send_places ≡ effects.old.send_places) }
{
    let due = &state.log.entries()[state.applied as usize..state.commit as usize];
    apply_all(
        alloc,
        machine,
        me,
        due,
        &mut state.machine,
        &mut state.sessions,
        effects,
    )?;
    state.applied = state.commit;
    Ok(())
}

/// A leader commits what it may (sections 5.3 and 5.4.2), and applies it.
pub(crate) fn settle<M: Machine>(
    alloc: Global,
    machine: &M,
    me: Node,
    state: &mut RaftState<M::State, M::Cmd, M::Out>,
    effects: &mut Effects<RaftOut<M::Out>, RaftMsg<M::Cmd>>,
) -> Result<(), AllocError>
    requires me { me < length state.old.peers }
    requires applied { state.old.applied ≤ state.old.commit }
    requires committed { state.old.commit ≤ length state.old.log }
    ensures does { OnOk result (Does (settled (M.meaning machine.now) (length state.old.peers) me state.old) state.new effects.old
        effects.new) }
    ensures room { OnOk result (effects.new.send_places ≡ effects.old.send_places) }
{
    let term = state.ballot.term();
    state.commit = advance(state.log.entries(), &state.peers, me, term, state.commit);
    catch_up(alloc, machine, me, state, effects)
}
