ghost use Rattle.std.specs.Prelude.{◌≡◌, IsTrue, IfOk};
ghost use Rattle.std.specs.Option.{option_copied, option_map};
ghost use Rattle.app_text.specs.Words.{is_optional, optional_of};

use std::alloc::{AllocError, Global};
use vst_base::Token;

/// What a word says of a token that may be left out: `-` that it is, `=` that the token follows. `None`
/// comes exactly where the word says neither.
pub fn optional<const MOST: usize>(word: &[u8]) -> Option<Option<&[u8]>>
    ensures { option_map (λ token. option_copied token) result ≡ optional_of MOST word.now }
{
    match word {
        b"-" => Some(None),
        [b'=', token @ ..] if Token::<MOST>::is_token(token) => Some(Some(token)),
        _ => None,
    }
}

/// The token, if there is one.
pub fn own_token<const MOST: usize>(
    alloc: Global,
    token: Option<&[u8]>,
) -> Result<Option<Token<MOST>>, AllocError>
    requires { IsTrue (is_optional MOST (option_copied token)) }
    ensures { IfOk result (λ own. own ≡ option_copied token.entry) }
{
    match token {
        Some(bytes) => Ok(Some(Token::from_token(alloc, bytes)?)),
        None => Ok(None),
    }
}
