ghost use Rattle.std.specs.Prelude.{◌≡◌, ◌≤◌, ◌<◌, ◌+◌, ◌++◌, [], ◌∷◌, length, IsFalse, IsTrue, OnOk};
ghost use Rattle.handler_trait.specs.Handling.{Does};
ghost use Rattle.raft_types.specs.Messages.{IsIndex};
ghost use Rattle.raft_xform.specs.Nodes.{is_leader};
ghost use Rattle.raft_xform.specs.Replicating as rules;
ghost use Rattle.raft_xform.specs.Sending.{append_rest};
ghost use Rattle.raft_xform.specs.Sound.{IsSoundNode, MaySend};
ghost use Rattle.vst_base.specs.Entries.{IsElectionTerm, IsOrigin};

use crate::applying::{catch_up, settle};
use crate::leading::{add_entry, broadcast};
use crate::seat::Seat;
use crate::sending::append;
use crate::{RaftState, Role};
use handler_trait::Effects;
use raft_commit::Moved;
use raft_log::Accept;
use raft_types::{Append, Appended, MAX_INDEX, RaftInput, RaftMsg, RaftOut};
use std::alloc::{AllocError, Global};
use vst_base::{Machine, Node, What};

// A leader puts a client's request at the end of its log.
fn propose<M: Machine>(
    alloc: Global,
    machine: &M,
    me: Node,
    state: &mut RaftState<M::State, M::Cmd, M::Out>,
    input: &RaftInput<M::Cmd>,
) -> Result<(), AllocError>
    requires term { IsElectionTerm state.old.ballot.term }
    requires me { IsOrigin me }
    requires room { length state.old.log < MAX_INDEX }
    ensures { OnOk result (state.new ≡ rules.proposed me state.old input.now) }
{
    let what = What::Request {
        client: input.client,
        request: input.request,
        origin: me,
        cmd: machine.copy_cmd(alloc, &input.cmd)?,
    };
    add_entry(state, what)
}

/// A client's request comes (section 5.3): to a node that does not lead, to a leader whose log is full, or to
/// one that takes it.
pub(crate) fn on_input<M: Machine>(
    alloc: Global,
    machine: &M,
    seat: Seat,
    state: &mut RaftState<M::State, M::Cmd, M::Out>,
    input: &RaftInput<M::Cmd>,
    effects: &mut Effects<RaftOut<M::Out>, RaftMsg<M::Cmd>>,
) -> Result<(), AllocError>
    requires sound { IsSoundNode seat.nodes seat.me state.old }
    requires room { seat.nodes ≤ effects.old.send_places + 1 }
    ensures { OnOk result (Does (rules.on_input (M.meaning machine.now) seat.nodes seat.me state.old input.now) state.new effects.old
        effects.new) }
{
    let client = input.client;
    let request = input.request;
    if !state.role.is_leader() {
        return effects.output(RaftOut::NotLeader { client, request });
    }
    if state.log.last().0 == MAX_INDEX {
        return effects.output(RaftOut::Full { client, request });
    }
    propose(alloc, machine, seat.me, state, input)?;
    broadcast(alloc, machine, seat, state, effects)
}

// Answers a leader.
fn answer<S, C: Drop, O: Drop>(
    state: &RaftState<S, C, O>,
    ok: bool,
    index: u32,
    to: Node,
    effects: &mut Effects<RaftOut<O>, RaftMsg<C>>,
)
    requires term { IsElectionTerm state.now.ballot.term }
    requires index { IsIndex index }
    requires room { 0 < effects.old.send_places }
    ensures sends { effects.new.sends ≡ effects.old.sends ++ rules.answer state.now ok index to }
    ensures outputs { effects.new.outputs ≡ effects.old.outputs }
{
    let appended = Appended::new(state.ballot.term(), ok, index);
    effects.send(to, RaftMsg::Appended(appended));
}

/// A leader's entries come (Figure 2, AppendEntries RPC).
pub(crate) fn on_append<M: Machine>(
    alloc: Global,
    machine: &M,
    me: Node,
    state: &mut RaftState<M::State, M::Cmd, M::Out>,
    from: Node,
    append: &Append<M::Cmd>,
    effects: &mut Effects<RaftOut<M::Out>, RaftMsg<M::Cmd>>,
) -> Result<(), AllocError>
    requires applied { state.old.applied ≤ state.old.commit }
    requires committed { state.old.commit ≤ length state.old.log }
    requires term { IsElectionTerm state.old.ballot.term }
    requires room { 0 < effects.old.send_places }
    ensures does { OnOk result (Does (rules.on_append (M.meaning machine.now) me state.old from append.now) state.new effects.old
        effects.new) }
    // It is so of every message, by its type.
    ensures in_range { IsIndex (rules.last_new append.now) }
{
    let prev = append.prev_index();
    if append.term() < state.ballot.term() {
        answer(state, false, prev, from, effects);
        return Ok(());
    }
    if state.role.is_leader() {
        return Ok(());
    }
    follow(alloc, machine, me, state, from, append, effects)
}

// A node that does not lead follows the leader of its term, and takes the entries if it may.
fn follow<M: Machine>(
    alloc: Global,
    machine: &M,
    me: Node,
    state: &mut RaftState<M::State, M::Cmd, M::Out>,
    from: Node,
    append: &Append<M::Cmd>,
    effects: &mut Effects<RaftOut<M::Out>, RaftMsg<M::Cmd>>,
) -> Result<(), AllocError>
    requires applied { state.old.applied ≤ state.old.commit }
    requires committed { state.old.commit ≤ length state.old.log }
    requires term { IsElectionTerm state.old.ballot.term }
    requires in_time { state.old.ballot.term ≤ append.now.term }
    requires follows { IsFalse (is_leader state.old.role) }
    requires room { 0 < effects.old.send_places }
    ensures { OnOk result (Does (rules.on_append (M.meaning machine.now) me state.old from append.now) state.new effects.old effects.new) }
{
    let prev = append.prev_index();
    state.role = Role::Follower;
    if !state.log.matches(prev, append.prev_term()) {
        answer(state, false, prev, from, effects);
        return Ok(());
    }
    match state
        .log
        .accept(alloc, machine, prev, append.entries(), state.commit)?
    {
        Accept::Below(_) => {
            answer(state, false, prev, from, effects);
            Ok(())
        }
        Accept::Taken(last) => {
            state.commit = state.commit.max(append.commit().min(last));
            catch_up(alloc, machine, me, state, effects)?;
            answer(state, true, last, from, effects);
            Ok(())
        }
    }
}

// Sends a node what is left of the log for it, if anything is.
fn append_more<M: Machine>(
    alloc: Global,
    machine: &M,
    state: &RaftState<M::State, M::Cmd, M::Out>,
    to: Node,
    effects: &mut Effects<RaftOut<M::Out>, RaftMsg<M::Cmd>>,
) -> Result<(), AllocError>
    requires state { MaySend state.now }
    requires to { to < length state.now.peers }
    requires room { 0 < effects.old.send_places }
    ensures sends { OnOk result (effects.new.sends ≡ effects.old.sends ++ append_rest state.now to) }
    ensures outputs { OnOk result (effects.new.outputs ≡ effects.old.outputs) }
{
    let (last, _) = state.log.last();
    if state.peers[usize::from(to.index())].next() <= last {
        effects.send(to, append(alloc, machine, state, to)?);
    }
    Ok(())
}

// Notes what a node's answer tells of its log.
fn note<S, C: Drop, O>(state: &mut RaftState<S, C, O>, from: Node, appended: &Appended) -> Moved
    requires { from < length state.old.peers }
    ensures moved { result ≡ rules.moved_by state.old from appended.now }
    ensures state { state.new ≡ rules.known state.old from appended.now }
{
    let (last, _) = state.log.last();
    let peer = &mut state.peers[usize::from(from.index())];
    peer.on_answer(appended.ok(), appended.index(), last)
}

/// A node's answer to the leader's entries comes (section 5.3).
pub(crate) fn on_appended<M: Machine>(
    alloc: Global,
    machine: &M,
    seat: Seat,
    state: &mut RaftState<M::State, M::Cmd, M::Out>,
    from: Node,
    appended: &Appended,
    effects: &mut Effects<RaftOut<M::Out>, RaftMsg<M::Cmd>>,
) -> Result<(), AllocError>
    requires sound { IsSoundNode seat.nodes seat.me state.old }
    requires from { from < seat.nodes }
    requires room { 0 < effects.old.send_places }
    ensures { OnOk result (Does (rules.on_appended (M.meaning machine.now) seat.nodes seat.me state.old from appended.now) state.new
        effects.old effects.new) }
{
    if !(state.role.is_leader() && appended.term() == state.ballot.term()) {
        return Ok(());
    }
    match note(state, from, appended) {
        Moved::Raised => {
            settle(alloc, machine, seat.me, state, effects)?;
            append_more(alloc, machine, state, from, effects)
        }
        Moved::Back => {
            effects.send(from, append(alloc, machine, state, from)?);
            Ok(())
        }
        Moved::Nothing => Ok(()),
    }
}
