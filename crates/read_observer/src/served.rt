ghost use Rattle.std.specs.Prelude.{◌≡◌};
ghost use Rattle.raft_types.specs.Messages.{IsClusterSize};
ghost use Rattle.read_observer.specs.Observed.{HasServed, IsPlace, cluster_in, cluster_of};
ghost use Rattle.reads_safety.specs.Orders.{order};

use crate::following::{follow_nodes, follow_reads};
use crate::placing::{in_order, place_of, with_reads};
use applied_order::AppliedOrder;
use raft_types::{Kept, RaftInput};
use read_xform::ReadRaft;
use std::alloc::{AllocError, Global};
use std::marker::Model;
use trace_maps::Image;
use vst_base::{Node, Queries, Step};
use xform_stack::{Network, Observer};

/// What a cluster with reads has served so far: the executed requests, and the answered reads, each with its place, the index up to
/// which its node had applied the log. Contracts see what is kept of the entries, and the reads with their places, as they came.
#[derive(Drop)]
pub struct ServedOrder<C> {
    executed: AppliedOrder<C>,
    answered: Vec<(u32, RaftInput<C>)>,
}

impl<C> Model for ServedOrder<C> {
    ghost use Rattle.read_observer.specs.Observed.{ServedView, served_code};

    ghost Value = { ServedView C };

    ghost coded = { served_code C.code };

    ghost view = { λ o. record { executed = o.executed; answered = o.answered.items } };
}

impl<M: Queries, W: Network<ReadRaft<M>, Kept = Kept<M::Cmd>>> Observer<ReadRaft<M>, W>
    for ServedOrder<M::Cmd> {
    // The node at which a step is an event.
    type Look = Option<Node>;

    type Line = RaftInput<M::Cmd>;

    ghost image_of = { λ h r ss. order (cluster_in (M.meaning h.machine) (M.reads h.machine) h.nodes) ss };

    ghost fits = { λ h sys. IsClusterSize h.nodes × (sys ≡ cluster_of (cluster_in (M.meaning h.machine) (M.reads h.machine) h.nodes)) };

    ghost has_followed = { λ o h r ss. HasServed (cluster_in (M.meaning h.machine) (M.reads h.machine) h.nodes) o ss };

    ghost has_looked = { λ look h r ss s. IsPlace (cluster_in (M.meaning h.machine) (M.reads h.machine) h.nodes) r look ss s };

    fn start(alloc: Global) -> Self {
        ServedOrder {
            executed: AppliedOrder::new(alloc),
            answered: Vec::new(alloc),
        }
    }

    fn look(&self, network: &W, step: &Step<RaftInput<M::Cmd>>) -> Option<Node> {
        place_of(network, step)
    }

    fn follow(
        &mut self,
        alloc: Global,
        look: Option<Node>,
        network: &W,
        _step: &Step<RaftInput<M::Cmd>>,
        _before: usize,
    ) -> Result<(), AllocError> {
        follow_nodes(&mut self.executed, alloc, network)?;
        follow_reads(&mut self.answered, alloc, network, look)
    }

    fn finish(self, alloc: Global) -> Result<Image<RaftInput<M::Cmd>>, AllocError> {
        let (indexes, requests) = self.executed.into_indexed();
        let placed = with_reads(alloc, indexes, requests, self.answered)?;
        let lines = in_order(alloc, placed)?;
        Ok(Image::from_lines(lines))
    }
}
