ghost use Rattle.std.specs.Prelude.{◌≡◌, ◌≤◌, IfOk, IfSome, length, map};
ghost use Rattle.claim_verdicts.specs.Places.{first_difference};

use crate::comparison::Comparison;
use crate::text_pair::TextPair;
use app_text::AppText;
use schedule_text::Printed;
use std::alloc::{AllocError, Global};

// The first place in which two lists of lines differ. Where one is longer, that of its first line after the other's last.
pub(crate) fn first_difference<A: AppText, P: Printed<A>>(
    alloc: Global,
    left: &[P],
    right: &[P],
) -> Result<Option<usize>, AllocError>
    ensures first { IfOk result (λ place. place ≡ first_difference 0 (map P.text left.now) (map P.text right.now)) }
    ensures within { IfOk result (λ place. IfSome place (λ p. p ≤ length left.now)) }
{
    let mut texts = TextPair::new(alloc)?;
    let whole = Comparison::SameSoFar(0).after::<A, P>(&mut texts, left, right)?;
    Ok(whole.difference(left.len()))
}
