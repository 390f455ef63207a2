ghost use Rattle.std.specs.Prelude.{◌≡◌, IfOk};
ghost use Rattle.std.specs.Option.{option_copied};

use std::alloc::{AllocError, Global};
use vst_base::Token;

/// An equal token, or none.
pub fn copy_token<const MOST: usize>(
    alloc: Global,
    token: Option<&Token<MOST>>,
) -> Result<Option<Token<MOST>>, AllocError>
    ensures { IfOk result (λ copy. copy ≡ option_copied token.entry) }
{
    match token {
        Some(token) => Ok(Some(token.copy(alloc)?)),
        None => Ok(None),
    }
}
