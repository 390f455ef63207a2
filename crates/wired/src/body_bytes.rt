ghost use Rattle.std.specs.Prelude.{◌≡◌, ◌<◌, IfOk, IfSome, OnOk};
ghost use Rattle.node_body.specs.Bodies.{body, body_of, read_body};
ghost use Rattle.raft_types.specs.Messages.{IsClusterSize};
ghost use Rattle.wired.specs.RaftSaving.{is_own, own_state, who_at};

use crate::Cluster;
use node_body::{Who, put_body, take_body};
use raft_types::Kept;
use std::alloc::{AllocError, Global};
use vst_base::Node;
use wire_messages::Wire;

/// A node of so many in a cluster.
pub(crate) fn who_at(cluster: &Cluster, node: Node, nodes: u8) -> Who
    ensures { result ≡ who_at cluster.now.stack nodes cluster.now.name node }
{
    Who {
        stack: cluster.stack,
        me: node.index(),
        nodes,
        name: cluster.name,
    }
}

// Whether a state of the stack is the node's own.
fn is_own(who: &Who, found: &Who) -> bool
    ensures { result ≡ is_own who.now found.now }
{
    found.me == who.me && found.nodes == who.nodes && found.name == who.name
}

/// The body of what a node keeps.
#[tactic(auto, using(crate::specs::RaftSavingLaws::among_if))]
pub(crate) fn bytes_of<C: Wire>(
    alloc: Global,
    who: &Who,
    kept: &Kept<C>,
) -> Result<Vec<u8>, AllocError>
    requires nodes { IsClusterSize who.now.nodes }
    requires me { who.now.me < who.now.nodes }
    requires voted { IfSome kept.now.voted (λ node. node < who.now.nodes) }
    ensures spelled { IfOk result (λ bytes. bytes.items ≡ (body who.now.stack C.format).spell (body_of who.now kept.now)) }
    ensures fits { OnOk result ((body who.now.stack C.format).Fits (body_of who.now kept.now)) }
{
    let mut bytes = Vec::new(alloc);
    put_body(&mut bytes, who, kept)?;
    Ok(bytes)
}

/// What a body says that the node kept. `None` comes exactly where the bytes are no body of its own.
pub(crate) fn kept_in<C: Wire>(
    alloc: Global,
    who: &Who,
    bytes: &[u8],
) -> Result<Option<Kept<C>>, AllocError>
    ensures { IfOk result (λ kept. kept ≡ own_state who.now (read_body who.now.stack C.format bytes.now)) }
{
    let Some((found, kept)) = take_body(alloc, who.stack, bytes)? else {
        return Ok(None);
    };
    if is_own(who, &found) {
        Ok(Some(kept))
    } else {
        Ok(None)
    }
}
