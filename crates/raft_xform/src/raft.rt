ghost use Rattle.std.specs.Prelude.{◌≡◌, ◌≤◌, ◌<◌, ◌-◌, length, refl, IfOk, IfSome, Some, slice_get};
ghost use Rattle.raft_types.specs.Messages.{IsClusterSize, IsTerm};
ghost use Rattle.raft_xform.specs.Nodes as node;
ghost use Rattle.raft_xform.specs.Raft.{raft, raft_recovery};
ghost use Rattle.raft_xform.specs.RaftLaws as laws;
ghost use Rattle.raft_xform.specs.Sound.{IsSoundNode};

use crate::copying::copy_message;
use crate::electing::{hear, on_request, on_vote, tick};
use crate::replicating::{on_append, on_appended, on_input};
use crate::seat::Seat;
use crate::{RaftState, Role};
use handler_trait::{Effects, Handlers, Rebootable};
use raft_clients::Sessions;
use raft_election::Ballot;
use raft_log::{Log, copy_entries};
use raft_types::{Entries, Kept, RaftInput, RaftMsg, RaftOut};
use std::alloc::{AllocError, Global};
use std::marker::Model;
use vst_base::{Entry, Machine, Node};

/// A machine on a cluster of nodes. Contracts see the machine, and how many nodes there are.
#[derive(Drop)]
pub struct Raft<M: Machine> {
    machine: M,
    nodes: u8,
}

impl<M: Machine> Model for Raft<M> {
    ghost use Rattle.raft_types.specs.Messages.{IsClusterSize};
    ghost use Rattle.raft_xform.specs.Clusters.{Cluster};

    ghost Value = { Cluster M };

    ghost view = { λ r. record { machine = r.machine; nodes = r.nodes } };

    ghost invariant = { λ r. IsClusterSize r.nodes };
}

// A node that starts with this term, vote and log.
fn started_with<M: Machine>(
    alloc: Global,
    machine: &M,
    term: u64,
    voted: Option<Node>,
    log: Log<M::Cmd>,
) -> Result<RaftState<M::State, M::Cmd, M::Out>, AllocError>
    requires { IsTerm term }
    ensures { IfOk result (λ state. state ≡ node.started_with (M.meaning machine.now) term voted log) }
{
    Ok(RaftState {
        role: Role::Follower,
        ballot: Ballot::kept(term, voted),
        log,
        commit: 0,
        applied: 0,
        peers: Vec::new(alloc),
        machine: machine.init(alloc)?,
        sessions: Sessions::new(alloc),
    })
}

impl<M: Machine> Raft<M> {
    /// This machine on so many nodes, 1 to `MAX_NODES`.
    pub fn new(machine: M, nodes: u8) -> Self
        requires { IsClusterSize nodes }
        ensures { result ≡ record { machine = machine; nodes = nodes } }
    {
        Raft { machine, nodes }
    }

    /// The machine.
    pub fn machine(&self) -> &M
        ensures { result.now ≡ self.now.machine }
    {
        &self.machine
    }

    // The node's place in the cluster.
    fn seat(&self, me: Node) -> Seat
        ensures { result ≡ record { me = me; nodes = self.now.nodes } }
    {
        Seat {
            me,
            nodes: self.nodes,
        }
    }

    /// Up to which index the node has applied its log.
    pub fn applied(&self, state: &RaftState<M::State, M::Cmd, M::Out>) -> u32
        ensures { result ≡ state.now.applied }
    {
        state.applied
    }

    /// The entry of the node's log at an index.
    pub fn entry<'a>(
        &self,
        state: &'a RaftState<M::State, M::Cmd, M::Out>,
        i: u32,
    ) -> &'a Entry<M::Cmd>
        requires from_one { 1 ≤ i }
        requires to_the_end { i ≤ length state.now.log }
        ensures { slice_get state.now.log (i - 1) ≡ Some result.now }
    {
        &state.log.entries()[i as usize - 1]
    }

    /// Whether the node leads.
    pub fn leads(&self, state: &RaftState<M::State, M::Cmd, M::Out>) -> bool
        ensures { result ≡ node.is_leader state.now.role }
    {
        state.role.is_leader()
    }
}

impl<M: Machine> Handlers for Raft<M> {
    type State = RaftState<M::State, M::Cmd, M::Out>;

    type Input = RaftInput<M::Cmd>;

    type Output = RaftOut<M::Out>;

    type Msg = RaftMsg<M::Cmd>;

    ghost use Rattle.std.proofs.Common.{arith};

    ghost meaning = { λ r. raft r.nodes (M.meaning r.machine) };

    ghost sound = { λ r n s. IsSoundNode r.nodes n s };

    ghost spent = { λ _ _. 0 };

    // One to each other node of the greatest cluster.
    const SENDS: usize = 8;

    ghost SENDS = { 8 };

    fn nodes(&self) -> u8 {
        self.nodes
    }

    fn takes_input(&self, _node: Node) -> bool {
        true
    }

    fn copy_input(
        &self,
        alloc: Global,
        input: &RaftInput<M::Cmd>,
    ) -> Result<RaftInput<M::Cmd>, AllocError> {
        Ok(RaftInput {
            client: input.client,
            request: input.request,
            cmd: self.machine.copy_cmd(alloc, &input.cmd)?,
        })
    }

    fn copy_msg(
        &self,
        alloc: Global,
        message: &RaftMsg<M::Cmd>,
    ) -> Result<RaftMsg<M::Cmd>, AllocError> {
        copy_message(alloc, &self.machine, message)
    }

    fn init(
        &self,
        alloc: Global,
        _node: Node,
    ) -> Result<RaftState<M::State, M::Cmd, M::Out>, AllocError> {
        let log = Log::new(Vec::new(alloc));
        started_with(alloc, &self.machine, 0, None, log)
    }

    fn input(
        &self,
        alloc: Global,
        node: Node,
        state: &mut RaftState<M::State, M::Cmd, M::Out>,
        input: &RaftInput<M::Cmd>,
        effects: &mut Effects<RaftOut<M::Out>, RaftMsg<M::Cmd>>,
    ) -> Result<(), AllocError> {
        on_input(alloc, &self.machine, self.seat(node), state, input, effects)
    }

    fn message(
        &self,
        alloc: Global,
        node: Node,
        state: &mut RaftState<M::State, M::Cmd, M::Out>,
        from: Node,
        message: &RaftMsg<M::Cmd>,
        effects: &mut Effects<RaftOut<M::Out>, RaftMsg<M::Cmd>>,
    ) -> Result<(), AllocError> {
        let machine = &self.machine;
        let seat = self.seat(node);
        hear(state, message.term());
        match message {
            RaftMsg::RequestVote(request) => {
                on_request(state, from, request, effects);
                Ok(())
            }
            RaftMsg::Vote(vote) => on_vote(alloc, machine, seat, state, from, vote, effects),
            RaftMsg::Append(append) => {
                on_append(alloc, machine, node, state, from, append, effects)
            }
            RaftMsg::Appended(appended) => {
                on_appended(alloc, machine, seat, state, from, appended, effects)
            }
        }
    }

    fn timeout(
        &self,
        alloc: Global,
        node: Node,
        state: &mut RaftState<M::State, M::Cmd, M::Out>,
        effects: &mut Effects<RaftOut<M::Out>, RaftMsg<M::Cmd>>,
    ) -> Result<(), AllocError> {
        tick(alloc, &self.machine, self.seat(node), state, effects)
    }

    ghost few_sends = { omega arith };

    ghost fresh = { λ r n below. refl };

    ghost modest_input = { λ r n s i below takes sound. laws.modest_input r.nodes (M.meaning r.machine) n s i sound };

    ghost modest_message = { λ r n s from m below from_below sound. laws.modest_message r.nodes (M.meaning r.machine) n s from m
        from_below sound };

    ghost modest_timeout = { λ r n s below sound. laws.modest_timeout r.nodes (M.meaning r.machine) n s sound };
}

impl<M: Machine> Rebootable for Raft<M> {
    type Kept = Kept<M::Cmd>;

    ghost recovery = { λ r. raft_recovery (M.meaning r.machine) };

    ghost fits = { λ r k. IfSome k.voted (λ node. node < r.nodes) };

    fn keep(
        &self,
        alloc: Global,
        state: &RaftState<M::State, M::Cmd, M::Out>,
    ) -> Result<Kept<M::Cmd>, AllocError> {
        let log = copy_entries(alloc, &self.machine, state.log.entries())?;
        Ok(Kept::new(state.ballot.term(), state.ballot.voted(), Entries::new(log)))
    }

    fn reboot(
        &self,
        alloc: Global,
        _node: Node,
        kept: Kept<M::Cmd>,
    ) -> Result<RaftState<M::State, M::Cmd, M::Out>, AllocError> {
        let term = kept.term();
        let voted = kept.voted();
        let log = Log::new(kept.into_log().into_vec());
        started_with(alloc, &self.machine, term, voted, log)
    }

    ghost rebooted_fresh = { λ r n k below fits. refl };
}
