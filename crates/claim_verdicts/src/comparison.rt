ghost use Rattle.std.specs.Prelude.{◌≡◌, ◌≤◌, ◌++◌, ℕ, List, [], IfOk, IfSome, length, map, drop};
ghost use Rattle.claim_verdicts.specs.Comparing.{IsWithin, difference_after};
ghost use Rattle.claim_verdicts.specs.Places.{first_difference};

use crate::text_pair::TextPair;
use app_text::AppText;
use schedule_text::Printed;
use std::alloc::AllocError;

/// How lines that come one after another compare with those that are claimed, as far as they came.
#[derive(Clone, Copy, Debug, PartialEq, Eq)]
pub(crate) enum Comparison {
    /// So many came, each with the text that is claimed at its place.
    SameSoFar(usize),
    /// The first place, from 0, at which one has another text, or none is claimed.
    DiffersAt(usize),
}

// Compares lines with those that are claimed from this place on.
fn compare_from<A: AppText, P: Printed<A>>(
    texts: &mut TextPair,
    claimed: &[P],
    place: usize,
    came: &[P],
) -> Result<Comparison, AllocError>
    requires { place ≤ length claimed.now }
    ensures tells { IfOk result (λ later. (more : List (List ℕ))
        → first_difference place (drop place (map P.text claimed.now)) (map P.text came.now ++ more) ≡ difference_after later
        (map P.text claimed.now) more) }
    ensures within { IfOk result (IsWithin (length claimed.now)) }
{
    let rest = &claimed[place..];
    for (index, line) in came.iter().enumerate() {
        let Some(wanted) = rest.get(index) else {
            return Ok(Comparison::DiffersAt(place + index));
        };
        if !texts.is_same_line::<A, P>(wanted, line)? {
            return Ok(Comparison::DiffersAt(place + index));
        }
    }
    Ok(Comparison::SameSoFar(place + came.len()))
}

impl Comparison {
    /// The comparison after these lines came too.
    pub fn after<A: AppText, P: Printed<A>>(
        self,
        texts: &mut TextPair,
        claimed: &[P],
        came: &[P],
    ) -> Result<Self, AllocError>
        requires { IsWithin (length claimed.now) self }
        ensures tells { IfOk result (λ later. (more : List (List ℕ))
            → difference_after self (map P.text claimed.now) (map P.text came.now ++ more) ≡ difference_after later
            (map P.text claimed.now) more) }
        ensures within { IfOk result (IsWithin (length claimed.now)) }
    {
        match self {
            Comparison::SameSoFar(place) => compare_from::<A, P>(texts, claimed, place, came),
            Comparison::DiffersAt(_) => Ok(self),
        }
    }

    /// The first place at which the lines differ from those that are claimed, of which there are so many, where no more come.
    pub fn difference(self, many: usize) -> Option<usize>
        requires { IsWithin many self }
        ensures first { (claimed : List (List ℕ)) → length claimed ≡ many → result ≡ difference_after self claimed [] }
        ensures within { IfSome result (λ place. place ≤ many) }
    {
        match self {
            Comparison::SameSoFar(place) if place < many => Some(place),
            Comparison::SameSoFar(_) => None,
            Comparison::DiffersAt(place) => Some(place),
        }
    }
}
