ghost use Rattle.std.specs.Prelude.{◌≡◌, []};
ghost use Rattle.raft_types.specs.Messages.{IsClusterSize};
ghost use Rattle.read_observer.specs.CheckedLaws.{checked-causal, refused_below};
ghost use Rattle.read_observer.specs.Observed.{HasServed, cluster_in, cluster_of};
ghost use Rattle.read_observer.specs.Pairs.{HasNoted, inputs_in};
ghost use Rattle.stacks.specs.Reads.{reads_played};
ghost use Rattle.xform_stack.specs.Running.{HasRun, HasTaken};
ghost use Rattle.xform_stack.specs.SystemLaws.{played_on-causal};
ghost use Rattle.xform_stack.specs.Systems.{played_on};
ghost use Rattle.reads_safety.specs.Orders.{order};

use net_semantics::{StepFault, Trace};
use raft_types::{RaftInput, RaftOut};
use read_observer::{PairChecked, ServedOrder};
use read_xform::ReadRaft;
use runs_in_bytes::ClusterInBytes;
use std::alloc::{AllocError, Global};
use vst_base::{Queries, Step};
use wired::AlwaysFits;
use xform_stack::{Network, Ran, Running, Runs};

/// A schedule that is run on a cluster of a machine whose reads take no entry of the log: the cluster on bytes, the order of what it has
/// served, and the pairs that were used. A type of its own, so that who passes it on names none of these.
#[derive(Drop)]
pub struct ReadRun<M: Queries>
where
    M::Cmd: AlwaysFits,
{
    running: PairChecked<M, Running<ReadRaft<M>, ClusterInBytes<ReadRaft<M>>, ServedOrder<M::Cmd>>>,
}

impl<M: Queries> ReadRun<M>
where
    M::Cmd: AlwaysFits,
{
    /// No step yet on this cluster, which has taken none. It takes no memory.
    pub(crate) fn new(alloc: Global, machine: M, network: ClusterInBytes<ReadRaft<M>>) -> Self
        requires size { IsClusterSize network.handlers.inner.inner.nodes }
        requires started { HasTaken (⟦<ClusterInBytes<ReadRaft<M>> as Network<ReadRaft<M>>>⟧.system network)
            ⟦<ClusterInBytes<ReadRaft<M>> as Network<ReadRaft<M>>>⟧.follows
            ⟦<ClusterInBytes<ReadRaft<M>> as Network<ReadRaft<M>>>⟧.progress [] network }
        requires trace { network.trace ≡ [] }
        requires sound { ⟦<ClusterInBytes<ReadRaft<M>> as Network<ReadRaft<M>>>⟧.sound network }
        ensures network { result.running.running.network ≡ network }
        ensures machine { result.running.machine ≡ machine }
        ensures started { HasRun (⟦<ReadRun<M> as Runs>⟧.played result) ⟦<ReadRun<M> as Runs>⟧.follows
            ⟦<ReadRun<M> as Runs>⟧.progress [] [] result }
        ensures sound { ⟦<ReadRun<M> as Runs>⟧.sound result }
    {
        let running = Running::new(alloc, network);
        ReadRun {
            running: PairChecked::new(alloc, machine, running),
        }
    }
}

impl<M: Queries> Runs for ReadRun<M>
where
    M::Cmd: AlwaysFits,
{
    type Input = RaftInput<M::Cmd>;

    type Output = RaftOut<M::Out>;

    type Line = RaftInput<M::Cmd>;

    ghost played = { λ r. let h = r.running.running.network.handlers.inner.inner in
        reads_played (M.reads r.running.machine) (cluster_in (M.meaning h.machine) (M.reads h.machine) h.nodes) };

    ghost progress = { λ r. record { trace = r.running.running.network.trace; taken = r.running.running.network.taken } };

    ghost follows = { λ r ss. let h = r.running.running.network.handlers.inner.inner in
        (⟦<ClusterInBytes<ReadRaft<M>> as Network<ReadRaft<M>>>⟧.follows r.running.running.network ss
        × HasServed (cluster_in (M.meaning h.machine) (M.reads h.machine) h.nodes) r.running.running.image ss)
        × HasNoted (M.reads r.running.machine) r.running.pairs (inputs_in ss) };

    ghost sound = { λ r. let h = r.running.running.network.handlers.inner.inner in
        ⟦<ClusterInBytes<ReadRaft<M>> as Network<ReadRaft<M>>>⟧.sound r.running.running.network
        × (IsClusterSize h.nodes × (⟦<ClusterInBytes<ReadRaft<M>> as Network<ReadRaft<M>>>⟧.system r.running.running.network
        ≡ cluster_of (cluster_in (M.meaning h.machine) (M.reads h.machine) h.nodes))) };

    fn step(&mut self, step: &Step<RaftInput<M::Cmd>>) -> Result<(), StepFault> {
        self.running.step(step)
    }

    fn trace(&self) -> &Trace<RaftInput<M::Cmd>, RaftOut<M::Out>> {
        self.running.trace()
    }

    fn forget_trace(&mut self) {
        self.running.forget_trace();
    }

    fn taken(&self) -> u32 {
        self.running.taken()
    }

    fn finish(
        self,
    ) -> Result<Ran<RaftInput<M::Cmd>, RaftOut<M::Out>, RaftInput<M::Cmd>>, AllocError> {
        self.running.finish()
    }

    ghost causal = { λ r. let h = r.running.running.network.handlers.inner.inner in
        let c = cluster_in (M.meaning h.machine) (M.reads h.machine) h.nodes in
        checked-causal (M.reads r.running.machine) (played_on (cluster_of c) (order c)) (refused_below (cluster_of c))
        (played_on-causal (cluster_of c) (order c)) };
}
