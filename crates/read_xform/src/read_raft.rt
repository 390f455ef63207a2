ghost use Rattle.std.specs.Prelude.{◌≡◌, ℕ, ◌+◌, ◌<◌, ◌≤◌, ◌&&◌, ◌==◌, [], IfOk, IfSome, IsTrue, OnOk, if◌then◌else◌, length, refl};
ghost use Rattle.handler_trait.specs.Handling.{Does};
ghost use Rattle.handler_trait.specs.declared.handlers.TheConstants.{SPENT_MAX};
ghost use Rattle.raft_types.specs.Messages.{IsClusterSize};
ghost use Rattle.raft_xform.specs.Nodes.{is_leader};
ghost use Rattle.raft_reads.specs.ReadRaft.{acknowledged, read_raft, read_recovery, waits};
ghost use Rattle.raft_reads.specs.Reads.{no_reads};
ghost use Rattle.read_xform.specs.Ending.{finished, leads_on, lent, read_begins};
ghost use Rattle.read_xform.specs.ReadLaws as laws;
ghost use Rattle.read_xform.specs.Sound.{IsSoundReader};

use crate::answering::answer_ready;
use crate::hand_on::hand_on;
use crate::reads::Reads;
use crate::rounds::Rounds;
use crate::{ReadState, Waiting};
use handler_trait::{Effects, Handlers, Rebootable};
use raft_types::{Kept, RaftInput, RaftMsg, RaftOut, ReadMsg};
use raft_xform::{Raft, RaftState};
use std::alloc::{AllocError, Global};
use std::marker::Model;
use vst_base::{Node, Queries};

/// A machine on a cluster of nodes, whose reads take no entry of the log. Contracts see the machine, and how many nodes there are.
///
/// An event costs what Raft's costs, a buffer for its packets, which are moved out of it, and a look at what each node acknowledged for
/// each read that it answers and one more: however many reads wait, and however long the log is.
#[derive(Drop)]
pub struct ReadRaft<M: Queries> {
    raft: Raft<M>,
}

impl<M: Queries> Model for ReadRaft<M> {
    ghost use Rattle.raft_xform.specs.Clusters.{Cluster};

    ghost Value = { Cluster M };

    ghost view = { λ r. r.raft };
}

// A node before an event: whether it leads, and its term.
#[derive(Clone, Copy)]
struct Standing {
    leads: bool,
    term: u64,
}

// The term and the round of the message that an event handles, both 0 where it handles none.
#[derive(Clone, Copy)]
struct Heard {
    term: u64,
    round: u64,
}

impl<M: Queries> ReadRaft<M> {
    /// This machine on so many nodes, 1 to `MAX_NODES`.
    pub fn new(machine: M, nodes: u8) -> Self
        requires { IsClusterSize nodes }
        ensures { result ≡ record { machine = machine; nodes = nodes } }
    {
        ReadRaft {
            raft: Raft::new(machine, nodes),
        }
    }

    /// The machine.
    pub fn machine(&self) -> &M
        ensures { result.now ≡ self.now.machine }
    {
        self.raft.machine()
    }

    /// Up to which index the node has applied its log.
    pub fn applied(&self, state: &ReadState<M::State, M::Cmd, M::Out>) -> u32
        ensures { result ≡ state.now.raft.applied }
    {
        self.raft.applied(&state.raft)
    }

    /// Whether the node leads.
    pub fn leads(&self, state: &ReadState<M::State, M::Cmd, M::Out>) -> bool
        ensures { result ≡ is_leader state.now.raft.role }
    {
        self.raft.leads(&state.raft)
    }

    /// The reads that the node's last event answered without an entry, in the order in which it told them.
    pub fn answered<'a>(
        &self,
        state: &'a ReadState<M::State, M::Cmd, M::Out>,
    ) -> &'a [Waiting<M::Cmd>]
        ensures { result.now ≡ state.now.answered }
    {
        &state.answered
    }

    // The node's standing.
    fn standing(&self, node: &RaftState<M::State, M::Cmd, M::Out>) -> Standing
        ensures { result ≡ record { leads = is_leader node.now.role; term = node.now.ballot.term } }
    {
        Standing {
            leads: self.raft.leads(node),
            term: node.term(),
        }
    }

    // Whether the node leads in the term in which it led before.
    fn leads_on(&self, before: Standing, node: &RaftState<M::State, M::Cmd, M::Out>) -> bool
        ensures { result ≡ leads_on before.leads before.term node.now }
    {
        before.leads && self.raft.leads(node) && node.term() == before.term
    }

    // Whether the input is a read that takes no entry: where the node leads, and has committed an entry of its term.
    fn waits(&self, state: &ReadState<M::State, M::Cmd, M::Out>, input: &RaftInput<M::Cmd>) -> bool
        requires { state.now.raft.commit ≤ length state.now.raft.log }
        ensures { result ≡ waits (M.reads self.now.machine) state.now input.now }
    {
        self.machine().is_read(&input.cmd) && self.leads(state) && state.raft.has_committed_own()
    }

    // A leader notes the round that an answer of its term acknowledges.
    fn note(
        &self,
        state: &mut ReadState<M::State, M::Cmd, M::Out>,
        from: Node,
        message: &ReadMsg<M::Cmd>,
    )
        requires { from < length state.old.reads.acked }
        ensures raft { state.new.raft ≡ state.old.raft }
        ensures reads { state.new.reads ≡ acknowledged state.old from message.now }
    {
        if let RaftMsg::Appended(appended) = message.raft()
            && self.raft.leads(&state.raft)
            && appended.term() == state.raft.term()
        {
            state.reads.acknowledge(from, message.round());
        }
    }

    // What a node knows of reads after an event of Raft: one that does not lead on drops it.
    fn settle(
        &self,
        before: Standing,
        node: &RaftState<M::State, M::Cmd, M::Out>,
        reads: &mut Reads<M::Cmd>,
    )
        ensures { reads.new ≡ (if leads_on before.leads before.term node.now then reads.old else no_reads (length reads.old.acked)) }
    {
        if !self.leads_on(before, node) {
            reads.clear();
        }
    }

    // The end of an event, of which Raft's part is done: a node that does not lead on drops its reads, those that may be answered are,
    // and each packet gets its round.
    fn end(
        &self,
        alloc: Global,
        me: Node,
        state: &mut ReadState<M::State, M::Cmd, M::Out>,
        before: Standing,
        heard: Heard,
        within: Effects<RaftOut<M::Out>, RaftMsg<M::Cmd>>,
        effects: &mut Effects<RaftOut<M::Out>, ReadMsg<M::Cmd>>,
    ) -> Result<(), AllocError>
        requires sound { IsSoundReader (M.reads self.now.machine) self.now.nodes me state.old }
        requires round { state.old.reads.round ≤ SPENT_MAX }
        requires heard { heard.round ≤ SPENT_MAX }
        requires room { length within.sends ≤ effects.old.send_places }
        ensures does { OnOk result (Does (finished (M.meaning self.now.machine) self.now.nodes me state.old.raft within.sends
            (if leads_on before.leads before.term state.old.raft then state.old.reads else no_reads self.now.nodes) heard.term heard.round)
            state.new (lent within effects.old) effects.new) }
        ensures sound { OnOk result (IsSoundReader (M.reads self.now.machine) self.now.nodes me state.new) }
    {
        let mut within = within;
        self.settle(before, &state.raft, &mut state.reads);
        state.answered.clear();
        answer_ready(
            alloc,
            &self.raft,
            me,
            &mut state.raft,
            &mut state.reads,
            &mut state.answered,
            &mut within,
        )?;
        let rounds = Rounds {
            own: state.reads.round(),
            term: heard.term,
            heard: heard.round,
        };
        hand_on(within, rounds, effects);
        Ok(())
    }

    // A read that waits begins a round, and the leader sends every other node entries, as when its timer fires.
    fn begin(
        &self,
        alloc: Global,
        node: Node,
        state: &mut ReadState<M::State, M::Cmd, M::Out>,
        input: &RaftInput<M::Cmd>,
        effects: &mut Effects<RaftOut<M::Out>, ReadMsg<M::Cmd>>,
    ) -> Result<(), AllocError>
        requires node { node < self.now.nodes }
        requires sound { IsSoundReader (M.reads self.now.machine) self.now.nodes node state.old }
        requires waits { IsTrue (waits (M.reads self.now.machine) state.old input.now) }
        requires budget { state.old.reads.round + 8 ≤ SPENT_MAX }
        requires room { 8 ≤ effects.old.send_places }
        ensures does { OnOk result (Does (read_begins (M.meaning self.now.machine) self.now.nodes node state.old input.now) state.new effects.old
            effects.new) }
        ensures sound { OnOk result (IsSoundReader (M.reads self.now.machine) self.now.nodes node state.new) }
    {
        let before = self.standing(&state.raft);
        let heard = Heard { term: 0, round: 0 };
        let read = self.raft.copy_input(alloc, input)?;
        state.reads.wait(read, state.raft.commit())?;
        let mut within = effects.lend_outputs(alloc, 8)?;
        self.raft
            .timeout(alloc, node, &mut state.raft, &mut within)?;
        self.end(alloc, node, state, before, heard, within, effects)
    }
}

impl<M: Queries> Handlers for ReadRaft<M> {
    type State = ReadState<M::State, M::Cmd, M::Out>;

    type Input = RaftInput<M::Cmd>;

    type Output = RaftOut<M::Out>;

    type Msg = ReadMsg<M::Cmd>;

    ghost use Rattle.std.proofs.Common.{arith};

    ghost meaning = { λ r. read_raft r.nodes (M.meaning r.machine) (M.reads r.machine) };

    ghost sound = { λ r n s. IsSoundReader (M.reads r.machine) r.nodes n s };

    // The round: each read that waits uses one up.
    ghost spent = { λ r s. s.reads.round };

    // As many as Raft: one to each other node of the greatest cluster.
    const SENDS: usize = 8;

    ghost SENDS = { 8 };

    fn nodes(&self) -> u8 {
        self.raft.nodes()
    }

    fn takes_input(&self, _node: Node) -> bool {
        true
    }

    fn copy_input(
        &self,
        alloc: Global,
        input: &RaftInput<M::Cmd>,
    ) -> Result<RaftInput<M::Cmd>, AllocError> {
        self.raft.copy_input(alloc, input)
    }

    fn copy_msg(
        &self,
        alloc: Global,
        message: &ReadMsg<M::Cmd>,
    ) -> Result<ReadMsg<M::Cmd>, AllocError> {
        let raft = self.raft.copy_msg(alloc, message.raft())?;
        Ok(ReadMsg::new(raft, message.round()))
    }

    fn init(
        &self,
        alloc: Global,
        node: Node,
    ) -> Result<ReadState<M::State, M::Cmd, M::Out>, AllocError> {
        Ok(ReadState {
            raft: self.raft.init(alloc, node)?,
            reads: Reads::none(alloc, self.raft.nodes())?,
            answered: Vec::new(alloc),
        })
    }

    fn input(
        &self,
        alloc: Global,
        node: Node,
        state: &mut ReadState<M::State, M::Cmd, M::Out>,
        input: &RaftInput<M::Cmd>,
        effects: &mut Effects<RaftOut<M::Out>, ReadMsg<M::Cmd>>,
    ) -> Result<(), AllocError> {
        if self.waits(state, input) {
            return self.begin(alloc, node, state, input, effects);
        }
        let before = self.standing(&state.raft);
        let heard = Heard { term: 0, round: 0 };
        let mut within = effects.lend_outputs(alloc, 8)?;
        self.raft
            .input(alloc, node, &mut state.raft, input, &mut within)?;
        self.end(alloc, node, state, before, heard, within, effects)
    }

    fn message(
        &self,
        alloc: Global,
        node: Node,
        state: &mut ReadState<M::State, M::Cmd, M::Out>,
        from: Node,
        message: &ReadMsg<M::Cmd>,
        effects: &mut Effects<RaftOut<M::Out>, ReadMsg<M::Cmd>>,
    ) -> Result<(), AllocError> {
        let before = self.standing(&state.raft);
        let heard = Heard {
            term: message.raft().term(),
            round: message.round(),
        };
        self.note(state, from, message);
        let mut within = effects.lend_outputs(alloc, 8)?;
        self.raft.message(
            alloc,
            node,
            &mut state.raft,
            from,
            message.raft(),
            &mut within,
        )?;
        self.end(alloc, node, state, before, heard, within, effects)
    }

    fn timeout(
        &self,
        alloc: Global,
        node: Node,
        state: &mut ReadState<M::State, M::Cmd, M::Out>,
        effects: &mut Effects<RaftOut<M::Out>, ReadMsg<M::Cmd>>,
    ) -> Result<(), AllocError> {
        let before = self.standing(&state.raft);
        let heard = Heard { term: 0, round: 0 };
        let mut within = effects.lend_outputs(alloc, 8)?;
        self.raft
            .timeout(alloc, node, &mut state.raft, &mut within)?;
        self.end(alloc, node, state, before, heard, within, effects)
    }

    ghost few_sends = { omega arith };

    ghost fresh = { λ r n below. refl };

    ghost modest_input = { λ r n s i below takes sound. laws.modest_input (M.reads r.machine) r.nodes (M.meaning r.machine) n s i sound };

    ghost modest_message = { λ r n s from x below from_below sound. laws.modest_message (M.reads r.machine) r.nodes (M.meaning r.machine) n s
        from x from_below sound };

    ghost modest_timeout = { λ r n s below sound. laws.modest_timeout (M.reads r.machine) r.nodes (M.meaning r.machine) n s sound };
}

impl<M: Queries> Rebootable for ReadRaft<M> {
    type Kept = Kept<M::Cmd>;

    ghost recovery = { λ r. read_recovery r.nodes (M.meaning r.machine) };

    ghost fits = { λ r k. IfSome k.voted (λ node. node < r.nodes) };

    fn keep(
        &self,
        alloc: Global,
        state: &ReadState<M::State, M::Cmd, M::Out>,
    ) -> Result<Kept<M::Cmd>, AllocError> {
        self.raft.keep(alloc, &state.raft)
    }

    fn reboot(
        &self,
        alloc: Global,
        node: Node,
        kept: Kept<M::Cmd>,
    ) -> Result<ReadState<M::State, M::Cmd, M::Out>, AllocError> {
        Ok(ReadState {
            raft: self.raft.reboot(alloc, node, kept)?,
            reads: Reads::none(alloc, self.raft.nodes())?,
            answered: Vec::new(alloc),
        })
    }

    ghost rebooted_fresh = { λ r n k below fits. refl };
}
