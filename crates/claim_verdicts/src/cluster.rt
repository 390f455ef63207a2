ghost use Rattle.std.specs.Prelude.{◌≡◌, ◌≤◌, ◌+◌, IfOk, length};
ghost use Rattle.claim_verdicts.specs.Clusters.{cluster_verdict};
ghost use Rattle.check_text.specs.declared.reading.TheConstants.{MAX_LINES};

use crate::Verdict;
use crate::explaining::unexplained;
use crate::lines::{image_line, item_line};
use crate::mark::Mark;
use crate::marking::{first_mark, first_unrequested, mark_order};
use crate::numbering::number_names;
use crate::outputs::outputs_of;
use app_text::AppText;
use check_text::Claim;
use raft_types::{RaftInput, RaftOut};
use std::alloc::{AllocError, Global};
use vst_base::Machine;

/// The verdict on a claim, of at most `MAX_LINES` items and requests, on a cluster: whether what clients saw is linearizable by the
/// order. It takes a hash look-up for each item and each request.
pub fn cluster_verdict<M: Machine, A: AppText<Input = M::Cmd, Output = M::Out>>(
    alloc: Global,
    machine: &M,
    claim: &Claim<RaftInput<M::Cmd>, RaftOut<M::Out>, RaftInput<M::Cmd>>,
) -> Result<Verdict, AllocError>
    requires few { length claim.now.trace + length claim.now.image ≤ MAX_LINES }
    ensures { IfOk result (λ verdict. verdict ≡ cluster_verdict A.input_text A.output_text (M.meaning machine.now) claim.now) }
{
    let order = claim.image();
    let names = number_names(alloc, order)?;
    let front = &order[..names.len()];
    let marks = mark_order::<A, M::Out>(alloc, &names, front, claim.trace())?;
    if let Some(place) = first_unrequested(&marks, order.len()) {
        return Ok(Verdict::No(1, image_line(claim, place)));
    }
    let outputs = outputs_of(alloc, machine, order)?;
    if let Some(place) = unexplained::<A, M::Cmd>(alloc, &names, &outputs, claim.trace())? {
        return Ok(Verdict::No(2, item_line(place)));
    }
    match first_mark(&marks, Mark::Late) {
        Some(place) => Ok(Verdict::No(3, image_line(claim, place))),
        None => Ok(Verdict::Yes),
    }
}
