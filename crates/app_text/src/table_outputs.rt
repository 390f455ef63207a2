ghost use Rattle.std.specs.Prelude.{◌≡◌, ◌++◌, IsTrue, OnErr, OnOk};
ghost use Rattle.app_text.specs.Reads.{Reads};
ghost use Rattle.app_text.specs.TableTexts.{answer_of, answer_text, is_output, output_by_words, output_text};
ghost use Rattle.app_text.specs.Words.{words_of};

use crate::TextFault;
use crate::optional::{optional, own_token};
use crate::printing::{optional_word, push_words};
use crate::word::Word::Plain;
use crate::words::cut_word;
use lock_table::TableOut;
use std::alloc::{AllocError, Global};
use vst_base::{Key, MAX_KEY};

// What the word answers, `yes` or `no`.
fn answer(word: &[u8]) -> Option<bool>
    ensures { result ≡ answer_of word.now }
{
    match word {
        b"yes" => Some(true),
        b"no" => Some(false),
        _ => None,
    }
}

// The word of an answer.
fn answer_word(yes: bool) -> &'static [u8]
    ensures { result.now ≡ answer_text yes }
{
    if yes { b"yes" } else { b"no" }
}

// The output that a text spells.
#[tactic(auto, using(crate::proofs::LastWords::last_of_table_output))]
pub fn read_table_output(alloc: Global, text: &[u8]) -> Result<TableOut, TextFault>
    ensures { Reads result (output_by_words (words_of text.now)) }
{
    let Some((name, rest)) = cut_word(text) else {
        return Err(TextFault::NotText);
    };
    let Some((holder, last)) = cut_word(rest) else {
        return Err(TextFault::NotText);
    };
    match (optional::<MAX_KEY>(holder), answer(last)) {
        (Some(holder), Some(yes)) if Key::is_token(name) => Ok(TableOut {
            name: Key::from_token(alloc, name)?,
            holder: own_token(alloc, holder)?,
            yes,
        }),
        _ => Err(TextFault::NotText),
    }
}

// Adds the output's text at the end, or nothing.
pub fn push_table_output(output: &TableOut, out: &mut Vec<u8>) -> Result<(), AllocError>
    ensures ok { OnOk result (out.new.items ≡ out.old.items ++ output_text output.now) }
    ensures err { OnErr result (out.new.items ≡ out.old.items) }
    ensures is_output { IsTrue (is_output output.now) }
{
    let words = [
        optional_word(&output.holder),
        Plain(answer_word(output.yes)),
    ];
    push_words(out, output.name.as_bytes(), &words)
}
