ghost use Rattle.node_body.specs.Bodies.{entry_in, kept};
ghost use Rattle.wire_messages.specs.Wires.{Takes};

use crate::Version;
use crate::log::take_log;
use crate::vote::read_vote;
use raft_types::Kept;
use std::alloc::{AllocError, Global};
use vst_base::MAX_TERM;
use wire_fields::Input;
use wire_messages::Wire;

// What a node of so many keeps, as the version has it, where it stands in front.
pub fn take_kept<C: Wire>(
    alloc: Global,
    input: &mut Input<'_>,
    version: Version,
    nodes: u8,
) -> Result<Option<Kept<C>>, AllocError>
    ensures { Takes (kept nodes (entry_in version C.format)) input.old input.new result }
{
    let Some(term) = input.u64(0, MAX_TERM) else {
        return Ok(None);
    };
    let Some(voted) = read_vote(input, nodes) else {
        return Ok(None);
    };
    let Some(log) = take_log(alloc, input, version)? else {
        return Ok(None);
    };
    Ok(Some(Kept::new(term, voted, log)))
}
