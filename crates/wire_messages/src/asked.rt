ghost use Rattle.std.specs.Prelude.{IfOk, IfSome};
ghost use Rattle.vst_base.specs.Entries.{IsOrigin};
ghost use Rattle.wire_messages.specs.EntryBytes.{asked};
ghost use Rattle.wire_messages.specs.Wires.{Takes};

use crate::Wire;
use std::alloc::{AllocError, Global};
use vst_base::{ClientId, MAX_NODES, Node, ReqId};
use wire_fields::Input;

/// What an entry says of a request: the client, its number of the request, the node that took it from the client,
/// and the command.
#[derive(Debug, Drop)]
pub struct Asked<C> {
    pub client: ClientId,
    pub request: ReqId,
    pub origin: Node,
    pub cmd: C,
}

/// The request that stands in front.
pub fn take_asked<C: Wire>(
    alloc: Global,
    input: &mut Input<'_>,
) -> Result<Option<Asked<C>>, AllocError>
    ensures asked { Takes (asked C.format) input.old input.new result }
    ensures in_range { IfOk result (λ there. IfSome there (λ a. IsOrigin a.origin)) }
{
    let Some(client) = input.u64(0, u64::MAX) else {
        return Ok(None);
    };
    let Some(request) = input.u64(0, u64::MAX) else {
        return Ok(None);
    };
    let Some(origin) = input.u8(0, MAX_NODES - 1) else {
        return Ok(None);
    };
    let Some(origin) = Node::new(origin, MAX_NODES) else {
        return Ok(None);
    };
    let Some(cmd) = C::take(alloc, input)? else {
        return Ok(None);
    };
    Ok(Some(Asked {
        client: ClientId::new(client),
        request: ReqId::new(request),
        origin,
        cmd,
    }))
}
