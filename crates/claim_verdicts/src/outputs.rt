ghost use Rattle.std.specs.Prelude.{◌≡◌, IfOk, map};
ghost use Rattle.vst_base.specs.Machines.{fold};

use raft_types::RaftInput;
use std::alloc::{AllocError, Global};
use vst_base::Machine;

// The outputs of a machine that takes the requests of an order.
pub(crate) fn outputs_of<M: Machine>(
    alloc: Global,
    machine: &M,
    order: &[RaftInput<M::Cmd>],
) -> Result<Vec<M::Out>, AllocError>
    ensures { IfOk result (λ outputs. outputs.items ≡ fold (M.meaning machine.now) (map (λ r. r.cmd) order.now)) }
{
    let mut state = machine.init(alloc)?;
    let mut outputs = Vec::new(alloc);
    for request in order {
        let output = machine.apply(alloc, &mut state, &request.cmd)?;
        outputs.push(output)?;
    }
    Ok(outputs)
}
