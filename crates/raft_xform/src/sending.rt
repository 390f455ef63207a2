ghost use Rattle.std.specs.Prelude.{◌≡◌, ◌+◌, ◌≤◌, ◌<◌, ◌++◌, length, IfOk, OnOk};
ghost use Rattle.vst_base.specs.Entries.{IsElectionTerm};
ghost use Rattle.raft_xform.specs.Sending.{append, appends, request, to_others};
ghost use Rattle.raft_xform.specs.Sound.{MaySend};

use crate::RaftState;
use crate::seat::Seat;
use handler_trait::Effects;
use raft_commit::next_batch;
use raft_log::copy_entries;
use raft_types::{Append, Entries, RaftMsg, RaftOut, RequestVote};
use std::alloc::{AllocError, Global};
use vst_base::{Machine, Node};

// A candidate asks for a vote.
fn request<S, C: Drop, O>(state: &RaftState<S, C, O>) -> RaftMsg<C>
    requires { IsElectionTerm state.now.ballot.term }
    ensures { result ≡ request state.now }
{
    let (last_index, last_term) = state.log.last();
    RaftMsg::RequestVote(RequestVote::new(state.ballot.term(), last_index, last_term))
}

/// A candidate asks each other node for its vote.
pub(crate) fn ask_others<S, C: Drop, O: Drop>(
    seat: Seat,
    state: &RaftState<S, C, O>,
    effects: &mut Effects<RaftOut<O>, RaftMsg<C>>,
)
    requires term { IsElectionTerm state.now.ballot.term }
    requires me { seat.me < seat.nodes }
    requires room { seat.nodes ≤ effects.old.send_places + 1 }
    ensures sends { effects.new.sends ≡ effects.old.sends ++ to_others seat.nodes seat.me (λ _. request state.now) }
    ensures outputs { effects.new.outputs ≡ effects.old.outputs }
{
    for n in 0..seat.nodes {
        if let Some(to) = seat.other(n) {
            effects.send(to, request(state));
        }
    }
}

/// A leader's message to a node: the entries of its log from the node's nextIndex on.
pub(crate) fn append<M: Machine>(
    alloc: Global,
    machine: &M,
    state: &RaftState<M::State, M::Cmd, M::Out>,
    to: Node,
) -> Result<RaftMsg<M::Cmd>, AllocError>
    requires state { MaySend state.now }
    requires to { to < length state.now.peers }
    ensures { IfOk result (λ message. message ≡ append state.now to) }
{
    let next = state.peers[usize::from(to.index())].next();
    let entries = copy_entries(alloc, machine, next_batch(state.log.entries(), next))?;
    let prev_term = state.log.term_at(next - 1).unwrap_or(0);
    Ok(RaftMsg::Append(Append::new(
        state.ballot.term(),
        next - 1,
        prev_term,
        state.commit,
        Entries::new(entries),
    )))
}

/// The same to each other node, in ascending order.
pub(crate) fn append_to_others<M: Machine>(
    alloc: Global,
    machine: &M,
    seat: Seat,
    state: &RaftState<M::State, M::Cmd, M::Out>,
    effects: &mut Effects<RaftOut<M::Out>, RaftMsg<M::Cmd>>,
) -> Result<(), AllocError>
    requires state { MaySend state.now }
    requires peers { length state.now.peers ≡ seat.nodes }
    requires me { seat.me < seat.nodes }
    requires room { seat.nodes ≤ effects.old.send_places + 1 }
    ensures sends { OnOk result (effects.new.sends ≡ effects.old.sends ++ appends seat.nodes seat.me state.now) }
    ensures outputs { OnOk result (effects.new.outputs ≡ effects.old.outputs) }
{
    for n in 0..seat.nodes {
        if let Some(to) = seat.other(n) {
            effects.send(to, append(alloc, machine, state, to)?);
        }
    }
    Ok(())
}
