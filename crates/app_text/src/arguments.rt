ghost use Rattle.std.specs.Prelude.{◌≡◌};
ghost use Rattle.app_text.specs.Reads.{Reads};
ghost use Rattle.app_text.specs.WordForms.{key_and_token_of, key_of};
ghost use Rattle.app_text.specs.Words.{words_of};

use crate::TextFault;
use crate::words::cut_word;
use std::alloc::Global;
use vst_base::{Key, Token};

/// A key, and nothing after it.
#[tactic(auto, using(crate::proofs::LastWords::last_key))]
pub fn key(alloc: Global, args: &[u8]) -> Result<Key, TextFault>
    ensures { Reads result (key_of (words_of args.now)) }
{
    if !Key::is_token(args) {
        return Err(TextFault::NotText);
    }
    Ok(Key::from_token(alloc, args)?)
}

/// A key and a token, and nothing after them.
#[tactic(auto, using(crate::proofs::LastWords::last_token))]
pub fn key_and_token<const MOST: usize>(
    alloc: Global,
    args: &[u8],
) -> Result<(Key, Token<MOST>), TextFault>
    ensures { Reads result (key_and_token_of MOST (words_of args.now)) }
{
    match cut_word(args) {
        Some((key, token)) if Key::is_token(key) && Token::<MOST>::is_token(token) => Ok((
            Key::from_token(alloc, key)?,
            Token::from_token(alloc, token)?,
        )),
        _ => Err(TextFault::NotText),
    }
}
