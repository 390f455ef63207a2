ghost use Rattle.std.specs.Prelude.{◌≡◌, ◌≤◌, [], IfOk, refl};
ghost use Rattle.raft_types.specs.Messages.{IsClusterSize};
ghost use Rattle.vst_base.specs.declared.net.Net.TheVariants as net_id;
ghost use Rattle.wire_codec.specs.Datagrams.{longest_message};
ghost use Rattle.wire_codec.specs.Headings.{HasByte};
ghost use Rattle.wired.specs.WiredRuns.{IsFormatOf};
ghost use Rattle.xform_stack.specs.Running.{HasTaken};
ghost use Rattle.runs_in_bytes.specs.ClusterLaws.{cluster_tells};
ghost use Rattle.runs_in_bytes.specs.Clusters.{IsOwnCluster, byte_world};

use crate::name::no_name;
use crate::{OnBytes, OnBytesAlone};
use net_semantics::{StepFault, Trace};
use std::alloc::{AllocError, Global};
use std::marker::Model;
use vst_base::{Net, Node, StackId, Step};
use wired::{Cluster, OnDisk, Saved, SeatState, Wired, clusters_run_the_same_on_bytes_alone};
use xform_stack::Network;

impl<H: OnDisk> OnBytesAlone for Wired<Saved<H>> {
    type Inner = H;

    type InnerKept = H::Kept;

    ghost within = { λ w. w.inner.inner };

    ghost within_recovery = { λ w. H.recovery w.inner.inner };

    ghost byte_world = { λ w. byte_world H.Msg.format H.saving w };

    ghost has_bytes = { H.has_bytes };

    ghost is_own = { λ w. IsOwnCluster H.Msg.format H.longest H.meaning w };

    fn has_bytes(input: &H::Input) {
        H::has_bytes(input);
    }

    fn run_on_bytes_alone() {
        clusters_run_the_same_on_bytes_alone::<H>();
    }

    fn inner(&self) -> &H {
        self.inner().inner()
    }

    fn inner_state(state: &SeatState<H::State>) -> &H::State {
        state.inner()
    }

    ghost tells = { λ w. cluster_tells H.Msg.format H.saving w H.meaning };
}

// A cluster of these handlers, carried on bytes of a stack alone.
#[tactic(auto, using(crate::proofs::Owned::owned, crate::proofs::Owned::within))]
fn on_bytes<H: OnDisk>(handlers: H, stack: StackId) -> Wired<Saved<H>>
    requires size { IsClusterSize (H.meaning handlers).nodes }
    requires packets { HasByte stack }
    requires format { IsFormatOf stack H.Msg.format }
    requires short { H.longest ≤ longest_message }
    ensures within { result.inner.inner ≡ handlers }
    ensures stack { result.stack ≡ stack }
    ensures own { IsOwnCluster H.Msg.format H.longest H.meaning result }
{
    let name = no_name();
    let cluster = Cluster { stack, name };
    Wired::new(Saved::new(handlers, cluster), cluster)
}

/// A cluster of handlers whose nodes stop and start again, carried on bytes alone.
#[derive(Drop)]
pub struct ClusterInBytes<H: OnDisk> {
    network: OnBytes<Wired<Saved<H>>>,
}

impl<H: OnDisk> Model for ClusterInBytes<H> {
    ghost use Rattle.runs_in_bytes.specs.Clusters.{ClusterView};

    ghost Value = { ClusterView H H.State H.Input H.Output };

    ghost view = { λ r. r.network };
}

impl<H: OnDisk> ClusterInBytes<H> {
    /// No step yet of these handlers on a cluster of 1 to `MAX_NODES` nodes, in the bytes of a stack whose messages are theirs.
    pub fn new(alloc: Global, handlers: H, stack: StackId) -> Result<Self, AllocError>
        requires size { IsClusterSize (H.meaning handlers).nodes }
        requires packets { HasByte stack }
        requires format { IsFormatOf stack H.Msg.format }
        requires short { H.longest ≤ longest_message }
        ensures handlers { IfOk result (λ network. network.handlers.inner.inner ≡ handlers) }
        ensures stack { IfOk result (λ network. network.handlers.stack ≡ stack) }
        ensures started { IfOk result (λ network. HasTaken (⟦<ClusterInBytes<H> as Network<H>>⟧.system network)
            ⟦<ClusterInBytes<H> as Network<H>>⟧.follows ⟦<ClusterInBytes<H> as Network<H>>⟧.progress [] network) }
        ensures trace { IfOk result (λ network. network.trace ≡ []) }
        ensures sound { IfOk result ⟦<ClusterInBytes<H> as Network<H>>⟧.sound }
    {
        Ok(ClusterInBytes {
            network: OnBytes::start(alloc, on_bytes(handlers, stack))?,
        })
    }
}

impl<H: OnDisk> Network<H> for ClusterInBytes<H> {
    type Kept = H::Kept;

    ghost within = { λ w. w.handlers.inner.inner };

    ghost system = { λ w. record {
      net = net_id.Fail;
      meaning = H.meaning w.handlers.inner.inner;
      recovery = H.recovery w.handlers.inner.inner;
    } };

    ghost progress = { λ w. record { trace = w.trace; taken = w.taken } };

    ghost follows = { ⟦<OnBytes<Wired<Saved<H>>> as Network<H>>⟧.follows };

    ghost sound = { ⟦<OnBytes<Wired<Saved<H>>> as Network<H>>⟧.sound };

    fn step(&mut self, step: &Step<H::Input>) -> Result<(), StepFault> {
        self.network.step(step)
    }

    fn handlers(&self) -> &H {
        self.network.handlers()
    }

    fn net(&self) -> Net {
        self.network.net()
    }

    fn trace(&self) -> &Trace<H::Input, H::Output> {
        self.network.trace()
    }

    fn forget_trace(&mut self) {
        self.network.forget_trace();
    }

    fn into_trace(self) -> Trace<H::Input, H::Output> {
        self.network.into_trace()
    }

    fn taken(&self) -> u32 {
        self.network.taken()
    }

    fn state(&self, n: Node) -> &H::State {
        self.network.state(n)
    }

    fn is_up(&self, n: Node) -> bool {
        self.network.is_up(n)
    }

    fn sent(&self) -> u32 {
        self.network.sent()
    }

    fn copies(&self, k: u32) -> u32 {
        self.network.copies(k)
    }

    fn ends(&self, k: u32) -> Option<(Node, Node)> {
        self.network.ends(k)
    }

    ghost same_meaning = { λ _. refl };
}
