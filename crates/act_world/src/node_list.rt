ghost use Rattle.std.specs.Prelude.{◌≡◌, ℕ, ◌<◌, length, IfOk, Some, slice_get};
ghost use Rattle.act_world.specs.Nodes.{first_node};

use crate::act_node::ActNode;
use crate::saves_by_acts::SavesByActs;
use handler_trait::Rebootable;
use std::alloc::{AllocError, Global};
use vst_base::Node;

/// Each node in its first state, and with a fresh disk.
pub fn first_nodes<H: Rebootable, D: SavesByActs<H>>(
    alloc: Global,
    handlers: &H,
    disks: &D,
) -> Result<
    Vec<ActNode<H::State, D::Disk, H::Input, D::Act, H::Output, H::Msg, D::Left>>,
    AllocError,
>
    requires { D.serves disks.now handlers.now }
    ensures nodes { IfOk result (λ nodes. length nodes.items ≡ (H.meaning handlers.now).nodes) }
    ensures first { IfOk result (λ nodes. (n : ℕ) → n < (H.meaning handlers.now).nodes → slice_get nodes.items n
        ≡ Some (first_node (H.meaning handlers.now) D.disks n)) }
    ensures sound { IfOk result (λ _. (n : ℕ) → n < (H.meaning handlers.now).nodes
        → H.sound handlers.now n ((H.meaning handlers.now).init n)) }
{
    let count = handlers.nodes();
    let mut nodes = Vec::new(alloc);
    for n in 0..count {
        let node = Node::new(n, count).unwrap();
        let state = handlers.init(alloc, node)?;
        let disk = disks.fresh(alloc, handlers, node)?;
        nodes.push(ActNode {
            state,
            disk,
            turn: None,
            left: None,
        })?;
    }
    Ok(nodes)
}
