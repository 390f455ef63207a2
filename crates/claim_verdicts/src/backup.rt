ghost use Rattle.std.specs.Prelude.{◌≡◌, ◌≤◌, ◌+◌, IfOk, length};
ghost use Rattle.claim_verdicts.specs.Backups.{backup_verdict};
ghost use Rattle.check_text.specs.declared.reading.TheConstants.{MAX_LINES};

use crate::Verdict;
use crate::answering::{answers_of, wrong_answer};
use crate::difference::first_difference;
use crate::lines::{image_line, item_line};
use crate::redirecting::wrong_at_backup;
use app_text::AppText;
use check_text::Claim;
use std::alloc::{AllocError, Global};
use trace_maps::{SingleNode, below_primary_backup};
use vst_base::{Machine, PbOut, Step};

/// The verdict on a claim, of at most `MAX_LINES` items and steps, on a primary and its backup: whether the machine alone explains
/// what clients saw, and the image is what it took.
pub fn backup_verdict<M: Machine, A: AppText<Input = M::Cmd, Output = M::Out>>(
    alloc: Global,
    machine: M,
    claim: &Claim<M::Cmd, PbOut<M::Out>, Step<M::Cmd>>,
) -> Result<Verdict, AllocError>
    requires few { length claim.now.trace + length claim.now.image ≤ MAX_LINES }
    ensures { IfOk result (λ verdict. verdict ≡ backup_verdict A.input_text A.output_text (M.meaning machine) claim.now) }
{
    let outputs = answers_of(alloc, &machine, claim.trace())?;
    let node = SingleNode::new(machine);
    let expected = below_primary_backup::<SingleNode<M>, M::Out>(alloc, &node, claim.trace())?;
    if let Some(place) = first_difference::<A, Step<M::Cmd>>(alloc, claim.image(), &expected)? {
        return Ok(Verdict::No(6, image_line(claim, place)));
    }
    if let Some(place) = wrong_answer::<A>(alloc, &outputs, claim.trace())? {
        return Ok(Verdict::No(7, item_line(place)));
    }
    match wrong_at_backup(claim.trace()) {
        Some(place) => Ok(Verdict::No(8, item_line(place))),
        None => Ok(Verdict::Yes),
    }
}
