ghost use Rattle.std.specs.Prelude.{◌≡◌, ◌+◌, ◌≤◌, ◌<◌, length, replicate, IfOk, IsTrue, OnOk};
ghost use Rattle.handler_trait.specs.Handling.{Does};
ghost use Rattle.raft_commit.specs.Peers.{new_peer};
ghost use Rattle.raft_xform.specs.Electing as rules;
ghost use Rattle.raft_xform.specs.Nodes.{is_leader};
ghost use Rattle.raft_xform.specs.Sound.{IsSoundNode};
ghost use Rattle.vst_base.specs.Entries.{HasOrigin, IsElectionTerm};

use crate::applying::settle;
use crate::seat::Seat;
use crate::sending::append_to_others;
use crate::{RaftState, Role};
use handler_trait::Effects;
use raft_commit::Peer;
use raft_types::{MAX_INDEX, RaftMsg, RaftOut};
use std::alloc::{AllocError, Global};
use vst_base::{Entry, Machine, What};

/// A leader adds an entry of its term at the end of its log (section 5.3).
pub(crate) fn add_entry<S, C: Drop, O>(
    state: &mut RaftState<S, C, O>,
    what: What<C>,
) -> Result<(), AllocError>
    requires term { IsElectionTerm state.old.ballot.term }
    requires origin { HasOrigin what }
    requires room { length state.old.log < MAX_INDEX }
    ensures { OnOk result (state.new ≡ rules.with_entry state.old what) }
{
    let entry = Entry::new(state.ballot.term(), what);
    state.log.push(entry)
}

/// A leader commits and applies what it may, and then sends each other node entries from its next index on.
pub(crate) fn broadcast<M: Machine>(
    alloc: Global,
    machine: &M,
    seat: Seat,
    state: &mut RaftState<M::State, M::Cmd, M::Out>,
    effects: &mut Effects<RaftOut<M::Out>, RaftMsg<M::Cmd>>,
) -> Result<(), AllocError>
    requires sound { IsSoundNode seat.nodes seat.me state.old }
    requires leads { IsTrue (is_leader state.old.role) }
    requires room { seat.nodes ≤ effects.old.send_places + 1 }
    ensures { OnOk result (Does (rules.broadcasts (M.meaning machine.now) seat.nodes seat.me state.old) state.new effects.old effects.new) }
{
    settle(alloc, machine, seat.me, state, effects)?;
    append_to_others(alloc, machine, seat, state, effects)
}

// What a new leader, whose log has this length, knows of so many nodes.
fn new_peers(alloc: Global, nodes: u8, len: u32) -> Result<Vec<Peer>, AllocError>
    requires { len < u32.MAX }
    ensures { IfOk result (λ peers. peers.items ≡ replicate nodes (new_peer len)) }
{
    vec![in alloc; Peer::new(len); usize::from(nodes)]
}

/// Becomes the leader. Its first entry is a no-op, where its log has room: with it the entries
/// of earlier terms are committed too, and it waits for no client (sections 5.4.2 and 8).
pub(crate) fn lead<M: Machine>(
    alloc: Global,
    machine: &M,
    seat: Seat,
    state: &mut RaftState<M::State, M::Cmd, M::Out>,
    effects: &mut Effects<RaftOut<M::Out>, RaftMsg<M::Cmd>>,
) -> Result<(), AllocError>
    requires sound { IsSoundNode seat.nodes seat.me state.old }
    requires term { IsElectionTerm state.old.ballot.term }
    requires room { seat.nodes ≤ effects.old.send_places + 1 }
    ensures { OnOk result (Does (rules.lead (M.meaning machine.now) seat.nodes seat.me state.old) state.new effects.old effects.new) }
{
    let (last, _) = state.log.last();
    state.peers = new_peers(alloc, seat.nodes, last)?;
    state.role = Role::Leader;
    if last < MAX_INDEX {
        add_entry(state, What::Noop)?;
    }
    broadcast(alloc, machine, seat, state, effects)
}
