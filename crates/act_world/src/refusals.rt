ghost use Rattle.std.specs.Prelude.{◌≡◌, nat_lt, Ok, Err, if◌then◌else◌};

use handler_trait::Handlers;
use vst_base::{Node, StepRefusal};

/// Node `n`, which has to exist.
pub fn existing_node<H: Handlers>(handlers: &H, n: u32) -> Result<Node, StepRefusal>
    ensures { result ≡ (if nat_lt n (H.meaning handlers.now).nodes then Ok n else Err StepRefusal.NoSuchNode) }
{
    let nodes = handlers.nodes();
    let Ok(number) = u8::try_from(n) else {
        return Err(StepRefusal::NoSuchNode);
    };
    match Node::new(number, nodes) {
        Some(node) => Ok(node),
        None => Err(StepRefusal::NoSuchNode),
    }
}

/// The place of a node in a list of nodes.
pub fn place(node: Node) -> usize
    ensures { result ≡ node }
{
    usize::from(node.index())
}
