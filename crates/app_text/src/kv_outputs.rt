ghost use Rattle.std.specs.Prelude.{◌≡◌, ◌++◌, IsTrue, OnErr, OnOk};
ghost use Rattle.app_text.specs.KvTexts.{is_output, output_by_words, output_text};
ghost use Rattle.app_text.specs.Reads.{Reads};
ghost use Rattle.app_text.specs.Words.{words_of};

use crate::TextFault;
use crate::optional::{optional, own_token};
use crate::printing::{optional_word, push_words};
use crate::words::cut_word;
use kv_machine::KvOut;
use std::alloc::{AllocError, Global};
use vst_base::{Key, MAX_VALUE};

// The output that a text spells.
#[tactic(auto, using(crate::proofs::LastWords::last_of_kv_output))]
pub fn read_kv_output(alloc: Global, text: &[u8]) -> Result<KvOut, TextFault>
    ensures { Reads result (output_by_words (words_of text.now)) }
{
    let Some((key, rest)) = cut_word(text) else {
        return Err(TextFault::NotText);
    };
    let Some((after, before)) = cut_word(rest) else {
        return Err(TextFault::NotText);
    };
    match (optional::<MAX_VALUE>(after), optional::<MAX_VALUE>(before)) {
        (Some(after), Some(before)) if Key::is_token(key) => Ok(KvOut {
            key: Key::from_token(alloc, key)?,
            after: own_token(alloc, after)?,
            before: own_token(alloc, before)?,
        }),
        _ => Err(TextFault::NotText),
    }
}

// Adds the output's text at the end, or nothing.
pub fn push_kv_output(output: &KvOut, out: &mut Vec<u8>) -> Result<(), AllocError>
    ensures ok { OnOk result (out.new.items ≡ out.old.items ++ output_text output.now) }
    ensures err { OnErr result (out.new.items ≡ out.old.items) }
    ensures is_output { IsTrue (is_output output.now) }
{
    let values = [optional_word(&output.after), optional_word(&output.before)];
    push_words(out, output.key.as_bytes(), &values)
}
