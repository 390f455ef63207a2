ghost use Rattle.std.specs.Prelude.{◌≡◌, IfOk};
ghost use Rattle.claim_verdicts.specs.Marks.{IsFront};

use crate::names::Names;
use raft_types::RaftInput;
use std::alloc::{AllocError, Global};

// The names of an order, in their places, up to the first that is there already.
pub(crate) fn number_names<C>(alloc: Global, order: &[RaftInput<C>]) -> Result<Names, AllocError>
    ensures { IfOk result (λ names. IsFront names order.now) }
{
    let mut names = Names::new(alloc);
    for request in order {
        if !names.add(request.client, request.request)? {
            return Ok(names);
        }
    }
    Ok(names)
}
