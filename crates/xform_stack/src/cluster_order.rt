ghost use Rattle.std.specs.Prelude.{◌≡◌, OnOk, ◌∷◌, [], ◌++◌, List};
ghost use Rattle.applied_order.specs.Orders.{HasFollowed};
ghost use Rattle.raft_safety.specs.Applied.{applied_by, executed_by};
ghost use Rattle.raft_types.specs.Messages.{IsClusterSize};
ghost use Rattle.raft_types.specs.declared.client.RaftInput.{RaftInput as Asked};
ghost use Rattle.vst_base.specs.declared.step.Step.{Step};
ghost use Rattle.xform_stack.specs.Systems.{cluster_of};
ghost use Rattle.xform_stack.specs.Running.{HasTaken};

use crate::{Network, Observer};
use applied_order::AppliedOrder;
use handler_trait::Handlers;
use raft_types::{Kept, RaftInput};
use raft_xform::Raft;
use std::alloc::{AllocError, Global};
use trace_maps::Image;
use vst_base::{Machine, Node, Step};

// Adds what each node of the cluster has applied, node after node.
fn follow_nodes<M: Machine, W: Network<Raft<M>, Kept = Kept<M::Cmd>>>(
    order: &mut AppliedOrder<M::Cmd>,
    alloc: Global,
    network: &W,
) -> Result<(), AllocError>
    requires sound { W.sound network.now }
    requires size { IsClusterSize (W.within network.now).nodes }
    requires cluster { W.system network.now ≡ cluster_of (M.meaning (W.within network.now).machine) (W.within network.now).nodes }
    ensures { OnOk result ((ss : List (Step (Asked M.Cmd))) (s : Step (Asked M.Cmd))
        → HasTaken (W.system network.now) W.follows W.progress (ss ++ s ∷ []) network.now
        → HasFollowed order.old (applied_by (M.meaning (W.within network.now).machine) (W.within network.now).nodes ss)
        → HasFollowed order.new (applied_by (M.meaning (W.within network.now).machine) (W.within network.now).nodes (ss ++ s ∷ []))) }
{
    let cluster = network.handlers();
    let nodes = cluster.nodes();
    for n in 0..nodes {
        let node = Node::new(n, nodes).unwrap();
        order.catch_up(alloc, cluster, network.state(node))?;
    }
    Ok(())
}

impl<M: Machine, W: Network<Raft<M>, Kept = Kept<M::Cmd>>> Observer<Raft<M>, W>
    for AppliedOrder<M::Cmd> {
    type Look = ();

    type Line = RaftInput<M::Cmd>;

    ghost image_of = { λ h r ss. executed_by (M.meaning h.machine) h.nodes ss };

    ghost fits = { λ h sys. IsClusterSize h.nodes × (sys ≡ cluster_of (M.meaning h.machine) h.nodes) };

    ghost has_followed = { λ order h r ss. HasFollowed order (applied_by (M.meaning h.machine) h.nodes ss) };

    ghost has_looked = { λ look h r ss s. Unit {0} };

    fn start(alloc: Global) -> Self {
        AppliedOrder::new(alloc)
    }

    fn look(&self, _network: &W, _step: &Step<RaftInput<M::Cmd>>) {}

    fn follow(
        &mut self,
        alloc: Global,
        _look: (),
        network: &W,
        _step: &Step<RaftInput<M::Cmd>>,
        _before: usize,
    ) -> Result<(), AllocError> {
        follow_nodes(self, alloc, network)
    }

    fn finish(self, _alloc: Global) -> Result<Image<RaftInput<M::Cmd>>, AllocError> {
        Ok(Image::from_lines(self.into_requests()))
    }
}
