ghost use Rattle.std.specs.Prelude.{◌≡◌, ◌+◌, ◌≤◌, ◌<◌, OnOk};
ghost use Rattle.handler_trait.specs.Handling.{Does};
ghost use Rattle.raft_types.specs.Messages.{IsTerm};
ghost use Rattle.raft_xform.specs.Electing as rules;
ghost use Rattle.raft_xform.specs.Sound.{IsSoundNode};
ghost use Rattle.vst_base.specs.Entries.{IsElectionTerm};

use crate::leading::lead;
use crate::seat::Seat;
use crate::sending::{append_to_others, ask_others};
use crate::{RaftState, Role};
use handler_trait::Effects;
use raft_election::is_majority;
use raft_types::{RaftMsg, RaftOut, RequestVote, Vote};
use std::alloc::{AllocError, Global};
use vst_base::{Machine, Node};

// A candidate leads at once where its own vote is a majority, and else asks the other nodes for theirs.
fn campaign<M: Machine>(
    alloc: Global,
    machine: &M,
    seat: Seat,
    state: &mut RaftState<M::State, M::Cmd, M::Out>,
    effects: &mut Effects<RaftOut<M::Out>, RaftMsg<M::Cmd>>,
) -> Result<(), AllocError>
    requires sound { IsSoundNode seat.nodes seat.me state.old }
    requires term { IsElectionTerm state.old.ballot.term }
    requires room { seat.nodes ≤ effects.old.send_places + 1 }
    ensures { OnOk result (Does (rules.campaign (M.meaning machine.now) seat.nodes seat.me state.old) state.new effects.old effects.new) }
{
    if is_majority(state.ballot.votes(), seat.nodes) {
        return lead(alloc, machine, seat, state, effects);
    }
    ask_others(seat, state, effects);
    Ok(())
}

/// The timer fires: a leader repeats its heartbeats, and any other node starts an election in the next term,
/// if there is one (section 5.2).
pub(crate) fn tick<M: Machine>(
    alloc: Global,
    machine: &M,
    seat: Seat,
    state: &mut RaftState<M::State, M::Cmd, M::Out>,
    effects: &mut Effects<RaftOut<M::Out>, RaftMsg<M::Cmd>>,
) -> Result<(), AllocError>
    requires sound { IsSoundNode seat.nodes seat.me state.old }
    requires room { seat.nodes ≤ effects.old.send_places + 1 }
    ensures { OnOk result (Does (rules.tick (M.meaning machine.now) seat.nodes seat.me state.old) state.new effects.old effects.new) }
{
    if state.role.is_leader() {
        return append_to_others(alloc, machine, seat, state, effects);
    }
    if !state.ballot.start(seat.me) {
        return Ok(());
    }
    state.role = Role::Candidate;
    campaign(alloc, machine, seat, state, effects)
}

/// Learns of a message's term: in a greater one the node follows, and has not voted (section 5.1).
pub(crate) fn hear<S, C, O>(state: &mut RaftState<S, C, O>, term: u64)
    requires { IsTerm term }
    ensures { state.new ≡ rules.heard term state.old }
{
    if state.ballot.learn(term) {
        state.role = Role::Follower;
    }
}

/// Answers a candidate that asks for a vote (Figure 2, RequestVote RPC).
pub(crate) fn on_request<S, C: Drop, O: Drop>(
    state: &mut RaftState<S, C, O>,
    from: Node,
    request: &RequestVote,
    effects: &mut Effects<RaftOut<O>, RaftMsg<C>>,
)
    requires term { IsElectionTerm state.old.ballot.term }
    requires room { 0 < effects.old.send_places }
    ensures { Does (rules.on_request state.old from request.now) state.new effects.old effects.new }
{
    let up_to_date = state
        .log
        .up_to_date(request.last_index(), request.last_term());
    let granted = state.ballot.on_request(request.term(), from, up_to_date);
    let vote = Vote::new(state.ballot.term(), granted);
    effects.send(from, RaftMsg::Vote(vote));
}

/// Counts a vote of its term as a candidate, and leads once it has a majority (section 5.2).
pub(crate) fn on_vote<M: Machine>(
    alloc: Global,
    machine: &M,
    seat: Seat,
    state: &mut RaftState<M::State, M::Cmd, M::Out>,
    from: Node,
    vote: &Vote,
    effects: &mut Effects<RaftOut<M::Out>, RaftMsg<M::Cmd>>,
) -> Result<(), AllocError>
    requires sound { IsSoundNode seat.nodes seat.me state.old }
    requires from { from < seat.nodes }
    requires room { seat.nodes ≤ effects.old.send_places + 1 }
    ensures { OnOk result (Does (rules.on_vote (M.meaning machine.now) seat.nodes seat.me state.old from vote.now) state.new effects.old
        effects.new) }
{
    if !(state.role.is_candidate() && vote.term() == state.ballot.term() && vote.granted()) {
        return Ok(());
    }
    state.ballot.on_grant(from);
    if is_majority(state.ballot.votes(), seat.nodes) {
        return lead(alloc, machine, seat, state, effects);
    }
    Ok(())
}
