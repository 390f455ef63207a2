ghost use Rattle.std.specs.Prelude.{◌≡◌, ◌++◌, IsTrue, OnErr, OnOk};
ghost use Rattle.app_text.specs.KvTexts.{cas_of, command_of, input_text, is_command};
ghost use Rattle.app_text.specs.Reads.{Reads};
ghost use Rattle.app_text.specs.Words.{words_of};

use crate::TextFault;
use crate::arguments::{key, key_and_token};
use crate::optional::{optional, own_token};
use crate::printing::{optional_word, push_words};
use crate::word::Word::Plain;
use crate::words::cut_word;
use kv_machine::KvCmd;
use std::alloc::{AllocError, Global};
use vst_base::{Key, MAX_VALUE, Value};

// A key, the value that it is expected to have, if one is, and the value to set.
#[tactic(auto, using(crate::proofs::LastWords::last_of_cas))]
fn cas(alloc: Global, args: &[u8]) -> Result<KvCmd, TextFault>
    ensures { Reads result (cas_of (words_of args.now)) }
{
    let Some((key, rest)) = cut_word(args) else {
        return Err(TextFault::NotText);
    };
    let Some((expected, value)) = cut_word(rest) else {
        return Err(TextFault::NotText);
    };
    match optional::<MAX_VALUE>(expected) {
        Some(expected) if Key::is_token(key) && Value::is_token(value) => Ok(KvCmd::Cas(
            Key::from_token(alloc, key)?,
            own_token(alloc, expected)?,
            Value::from_token(alloc, value)?,
        )),
        _ => Err(TextFault::NotText),
    }
}

// The command that a text spells.
pub fn read_command(alloc: Global, text: &[u8]) -> Result<KvCmd, TextFault>
    ensures { Reads result (command_of (words_of text.now)) }
{
    let Some((name, args)) = cut_word(text) else {
        return Err(TextFault::NotText);
    };
    match name {
        b"get" => Ok(KvCmd::Get(key(alloc, args)?)),
        b"put" => {
            let (key, value) = key_and_token(alloc, args)?;
            Ok(KvCmd::Put(key, value))
        }
        b"del" => Ok(KvCmd::Del(key(alloc, args)?)),
        b"cas" => cas(alloc, args),
        b"cad" => {
            let (key, value) = key_and_token(alloc, args)?;
            Ok(KvCmd::Cad(key, value))
        }
        _ => Err(TextFault::NotText),
    }
}

// Adds the command's text at the end, or nothing.
pub fn push_command(cmd: &KvCmd, out: &mut Vec<u8>) -> Result<(), AllocError>
    ensures ok { OnOk result (out.new.items ≡ out.old.items ++ input_text cmd.now) }
    ensures err { OnErr result (out.new.items ≡ out.old.items) }
    ensures is_command { IsTrue (is_command cmd.now) }
{
    match cmd {
        KvCmd::Get(key) => push_words(out, b"get", &[Plain(key.as_bytes())]),
        KvCmd::Put(key, value) => push_words(
            out,
            b"put",
            &[Plain(key.as_bytes()), Plain(value.as_bytes())],
        ),
        KvCmd::Del(key) => push_words(out, b"del", &[Plain(key.as_bytes())]),
        KvCmd::Cas(key, expected, value) => push_words(
            out,
            b"cas",
            &[
                Plain(key.as_bytes()),
                optional_word(expected),
                Plain(value.as_bytes()),
            ],
        ),
        KvCmd::Cad(key, value) => push_words(
            out,
            b"cad",
            &[Plain(key.as_bytes()), Plain(value.as_bytes())],
        ),
    }
}
