use crate::{Says, Telling};
use handler_trait::Handlers;
use net_semantics::FailWorld;
use raft_xform::Raft;
use read_xform::ReadRaft;
use vst_base::{Machine, Node, Queries};
use xform_stack::{Network, SteadyWorld};

/// A network of which a node may lead.
pub trait Leads<H: Handlers>: Network<H> {
    /// The term in which a node leads, if it does.
    fn leads_in(&self, node: u8) -> Option<u64>
        requires { Self.sound self.now };
}

// Where no node stops none has to lead.
impl<H: Handlers> Leads<H> for SteadyWorld<H> {
    fn leads_in(&self, _node: u8) -> Option<u64> {
        None
    }
}

impl<M: Machine> Leads<Telling<Raft<M>>> for FailWorld<Telling<Raft<M>>>
where
    M::Cmd: Says,
{
    fn leads_in(&self, node: u8) -> Option<u64> {
        let raft = self.handlers().inner();
        let node = Node::new(node, raft.nodes())?;
        let state = self.state(node);
        if self.is_up(node) && raft.leads(state) {
            Some(state.term())
        } else {
            None
        }
    }
}

impl<M: Queries> Leads<Telling<ReadRaft<M>>> for FailWorld<Telling<ReadRaft<M>>>
where
    M::Cmd: Says,
{
    fn leads_in(&self, node: u8) -> Option<u64> {
        let cluster = self.handlers().inner();
        let node = Node::new(node, cluster.nodes())?;
        let state = self.state(node);
        if self.is_up(node) && cluster.leads(state) {
            Some(state.raft().term())
        } else {
            None
        }
    }
}
