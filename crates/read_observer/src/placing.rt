ghost use Rattle.std.specs.List.{zip};
ghost use Rattle.std.specs.Prelude.{◌≡◌, [], ◌++◌, List, map, nat_lt, None, Some, IfOk, if◌then◌else◌};
ghost use Rattle.read_observer.specs.Observed.{IsPlace, cluster_in};
ghost use Rattle.reads_safety.specs.Orders.{insert_all};
ghost use Rattle.vst_base.specs.declared.step.Step.{Step as StepView};
ghost use Rattle.raft_types.specs.declared.client.RaftInput.{RaftInput as Asked};
ghost use Rattle.xform_stack.specs.Running.{HasTaken};

use handler_trait::Handlers;
use raft_types::{Kept, RaftInput};
use read_xform::ReadRaft;
use std::alloc::{AllocError, Global};
use vst_base::{Node, Queries, Step};
use xform_stack::Network;

/// Node `n` of so many, if there is one.
pub(crate) fn node_numbered(n: u32, nodes: u8) -> Option<Node>
    ensures { result ≡ (if nat_lt n nodes then Some n else None) }
{
    Node::new(u8::try_from(n).ok()?, nodes)
}

/// The node at which a step is an event, if the network takes it now: an input and a timer name it, and what is delivered is an event
/// at its destination. Copies, losses, stops and starts are none. It takes no memory.
pub(crate) fn place_of<M: Queries, W: Network<ReadRaft<M>, Kept = Kept<M::Cmd>>>(
    network: &W,
    step: &Step<RaftInput<M::Cmd>>,
) -> Option<Node>
    requires { W.sound network.now }
    ensures { (ss : List (StepView (Asked M.Cmd))) → HasTaken (W.system network.now) W.follows W.progress ss network.now
        → IsPlace (cluster_in (M.meaning (W.within network.now).machine) (M.reads (W.within network.now).machine)
        (W.within network.now).nodes) (W.system network.now).recovery result ss step.now }
{
    let nodes = network.handlers().nodes();
    match step {
        Step::In(n, _) => node_numbered(*n, nodes),
        Step::Tick(n) => node_numbered(*n, nodes),
        Step::Deliver(k) => {
            let found = network.ends(*k)?;
            Some(found.1)
        }
        _ => None,
    }
}

/// Requests with their places, and the placed reads behind them.
pub(crate) fn with_reads<C: Drop>(
    alloc: Global,
    places: Vec<u32>,
    requests: Vec<RaftInput<C>>,
    reads: Vec<(u32, RaftInput<C>)>,
) -> Result<Vec<(u32, RaftInput<C>)>, AllocError>
    ensures { IfOk result (λ placed. placed.items ≡ zip places.items requests.items ++ reads.items) }
{
    places.into_iter().zip(requests).chain(reads).collect(alloc)
}

/// Requests in the order of their places, and those of one place as they stand.
pub(crate) fn in_order<C: Drop>(
    alloc: Global,
    placed: Vec<(u32, RaftInput<C>)>,
) -> Result<Vec<RaftInput<C>>, AllocError>
    ensures { IfOk result (λ requests. requests.items ≡ map (λ p. p.1) (insert_all [] placed.items)) }
{
    let mut placed = placed;
    placed.sort_by_key(|p| p.0)?;
    placed.into_iter().map(|p| p.1).collect(alloc)
}
