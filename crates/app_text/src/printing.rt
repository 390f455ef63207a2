ghost use Rattle.std.specs.Prelude.{◌≡◌, ◌∷◌, ◌++◌, IsTrue, OnOk, OnErr, map};
ghost use Rattle.std.specs.List.{flat_map};
ghost use Rattle.app_text.specs.Printing.{word_text};
ghost use Rattle.app_text.specs.Words.{is_optional, joined, optional_text};
ghost use Rattle.lists.specs.Prefixes.{IsPrefix};

use crate::word::Word;
use crate::words::SPACE;
use std::alloc::AllocError;
use vst_base::Token;

// The word of a token that may be left out.
pub fn optional_word<const MOST: usize>(token: &Option<Token<MOST>>) -> Word<'_>
    ensures text { word_text result ≡ optional_text token.now }
    ensures is_optional { IsTrue (is_optional MOST token.now) }
{
    match token {
        Some(token) => Word::Marked(token.as_bytes()),
        None => Word::Plain(b"-"),
    }
}

// Adds a space and a word.
fn push_word(out: &mut Vec<u8>, word: &Word<'_>) -> Result<(), AllocError>
    ensures ok { OnOk result (out.new.items ≡ out.old.items ++ 32 ∷ word_text word.now) }
    ensures err { OnErr result (IsPrefix out.old.items out.new.items) }
{
    out.push(SPACE)?;
    match word {
        Word::Plain(bytes) => out.extend_from_slice(bytes),
        Word::Marked(bytes) => {
            out.push(b'=')?;
            out.extend_from_slice(bytes)
        }
    }
}

// Adds each word after a space.
fn push_args(out: &mut Vec<u8>, args: &[Word<'_>]) -> Result<(), AllocError>
    ensures ok { OnOk result (out.new.items ≡ out.old.items ++ flat_map (λ w. 32 ∷ word_text w) args.now) }
    ensures err { OnErr result (IsPrefix out.old.items out.new.items) }
{
    for word in args {
        push_word(out, word)?;
    }
    Ok(())
}

// Adds words with a space between each two.
fn push_all(out: &mut Vec<u8>, first: &[u8], args: &[Word<'_>]) -> Result<(), AllocError>
    ensures ok { OnOk result (out.new.items ≡ out.old.items ++ joined (first.now ∷ map word_text args.now)) }
    ensures err { OnErr result (IsPrefix out.old.items out.new.items) }
{
    out.extend_from_slice(first)?;
    push_args(out, args)
}

/// Adds words with a space between each two, or nothing.
pub fn push_words(out: &mut Vec<u8>, first: &[u8], args: &[Word<'_>]) -> Result<(), AllocError>
    ensures ok { OnOk result (out.new.items ≡ out.old.items ++ joined (first.now ∷ map word_text args.now)) }
    ensures err { OnErr result (out.new.items ≡ out.old.items) }
{
    let len = out.len();
    let pushed = push_all(out, first, args);
    if pushed.is_err() {
        out.truncate(len);
    }
    pushed
}
