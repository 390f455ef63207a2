ghost use Rattle.std.specs.Prelude.{◌≡◌, ◌<◌, ◌≤◌, List, [], ◌∷◌, ◌++◌, length, map, IfSome, OnOk};
ghost use Rattle.applied_order.specs.Orders.{HasFollowed};
ghost use Rattle.raft_reads.specs.Erasing.{erased};
ghost use Rattle.lists.specs.Prefixes.{IsPrefix};
ghost use Rattle.raft_safety.specs.Applied.{applied_by, applied_list, longer};
ghost use Rattle.raft_types.specs.Messages.{IsClusterSize};
ghost use Rattle.raft_types.specs.declared.client.RaftInput.{RaftInput as Asked};
ghost use Rattle.read_observer.specs.Observed.{IsPlace, cluster_in, cluster_of};
ghost use Rattle.reads_safety.specs.Orders.{answered};
ghost use Rattle.vst_base.specs.declared.entry.Entry.{Entry as EntryView};
ghost use Rattle.vst_base.specs.declared.step.Step.{Step as StepView};
ghost use Rattle.xform_stack.specs.Running.{HasTaken};

use applied_order::AppliedOrder;
use handler_trait::Handlers;
use raft_types::{Kept, RaftInput};
use read_xform::{ReadRaft, ReadState};
use std::alloc::{AllocError, Global};
use vst_base::{Node, Queries};
use xform_stack::Network;

// Adds what a node has applied after the entries that there are. After an `Err` the order is given up.
fn catch_up<M: Queries>(
    order: &mut AppliedOrder<M::Cmd>,
    alloc: Global,
    cluster: &ReadRaft<M>,
    state: &ReadState<M::State, M::Cmd, M::Out>,
) -> Result<(), AllocError>
    requires { state.now.raft.applied ≤ length state.now.raft.log }
    ensures { OnOk result ((all es : List (EntryView M.Cmd)) → IsPrefix es all → IsPrefix (applied_list state.now.raft) all
        → HasFollowed order.old es → HasFollowed order.new (longer es (applied_list state.now.raft))) }
{
    let applied = cluster.applied(state) as usize;
    order.grow(alloc, cluster.machine(), &state.raft().log()[..applied])
}

/// Adds what each node of the cluster has applied, node after node.
pub(crate) fn follow_nodes<M: Queries, W: Network<ReadRaft<M>, Kept = Kept<M::Cmd>>>(
    order: &mut AppliedOrder<M::Cmd>,
    alloc: Global,
    network: &W,
) -> Result<(), AllocError>
    requires sound { W.sound network.now }
    requires size { IsClusterSize (W.within network.now).nodes }
    requires cluster { W.system network.now ≡ cluster_of (cluster_in (M.meaning (W.within network.now).machine)
        (M.reads (W.within network.now).machine) (W.within network.now).nodes) }
    ensures { OnOk result ((ss : List (StepView (Asked M.Cmd))) (s : StepView (Asked M.Cmd))
        → HasTaken (W.system network.now) W.follows W.progress (ss ++ s ∷ []) network.now
        → let c = cluster_in (M.meaning (W.within network.now).machine) (M.reads (W.within network.now).machine)
        (W.within network.now).nodes in
        HasFollowed order.old (applied_by c.machine c.nodes (erased c ss))
        → HasFollowed order.new (applied_by c.machine c.nodes (erased c (ss ++ s ∷ [])))) }
{
    let cluster = network.handlers();
    let nodes = cluster.nodes();
    for n in 0..nodes {
        let node = Node::new(n, nodes).unwrap();
        catch_up(order, alloc, cluster, network.state(node))?;
    }
    Ok(())
}

// Adds the reads that the node's last event answered, each with the index up to which the node has applied its log.
fn add_answered<M: Queries>(
    answered: &mut Vec<(u32, RaftInput<M::Cmd>)>,
    alloc: Global,
    cluster: &ReadRaft<M>,
    state: &ReadState<M::State, M::Cmd, M::Out>,
) -> Result<(), AllocError>
    ensures { OnOk result (answered.new.items
        ≡ answered.old.items ++ map (λ x. (state.now.raft.applied, x.input)) state.now.answered) }
{
    let place = cluster.applied(state);
    let reads = cluster.answered(state);
    for read in reads {
        let input = cluster.copy_input(alloc, read.input())?;
        answered.push((place, input))?;
    }
    Ok(())
}

// The same node, if it is one of so many.
fn same_node(place: Option<Node>, nodes: u8) -> Option<Node>
    ensures same { IfSome place (λ n. n < nodes) → result ≡ place }
    ensures below { IfSome result (λ n. n < nodes) }
{
    let place = place?;
    Node::new(place.index(), nodes)
}

/// Adds the reads that a step answered, which was an event at this node, if at any.
pub(crate) fn follow_reads<M: Queries, W: Network<ReadRaft<M>, Kept = Kept<M::Cmd>>>(
    reads: &mut Vec<(u32, RaftInput<M::Cmd>)>,
    alloc: Global,
    network: &W,
    place: Option<Node>,
) -> Result<(), AllocError>
    requires sound { W.sound network.now }
    requires size { IsClusterSize (W.within network.now).nodes }
    requires cluster { W.system network.now ≡ cluster_of (cluster_in (M.meaning (W.within network.now).machine)
        (M.reads (W.within network.now).machine) (W.within network.now).nodes) }
    ensures { OnOk result ((ss : List (StepView (Asked M.Cmd))) (s : StepView (Asked M.Cmd))
        → HasTaken (W.system network.now) W.follows W.progress (ss ++ s ∷ []) network.now
        → let c = cluster_in (M.meaning (W.within network.now).machine) (M.reads (W.within network.now).machine)
        (W.within network.now).nodes in
        IsPlace c (W.system network.now).recovery place ss s → reads.old.items ≡ answered c ss
        → reads.new.items ≡ answered c (ss ++ s ∷ [])) }
{
    let cluster = network.handlers();
    match same_node(place, cluster.nodes()) {
        Some(node) => add_answered(reads, alloc, cluster, network.state(node)),
        None => Ok(()),
    }
}
