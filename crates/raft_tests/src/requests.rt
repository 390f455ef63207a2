ghost use Rattle.vst_base.specs.Entries.{HasOrigin};

use vst_base::{ClientId, Node, ReqId, What};

// What an entry holds of a client's request, which node 0 took.
pub(crate) fn asked<C>(client: u64, request: u64, cmd: C) -> What<C>
    ensures { HasOrigin result }
{
    What::Request {
        client: ClientId::new(client),
        request: ReqId::new(request),
        origin: Node::new(0, 9).unwrap(),
        cmd,
    }
}
