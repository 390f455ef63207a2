ghost use Rattle.std.specs.Prelude.{◌≡◌, ◌++◌, IsTrue, OnErr, OnOk};
ghost use Rattle.app_text.specs.Reads.{Reads};
ghost use Rattle.app_text.specs.TableTexts.{command_of, input_text, is_command};
ghost use Rattle.app_text.specs.Words.{words_of};

use crate::TextFault;
use crate::arguments::{key, key_and_token};
use crate::printing::push_words;
use crate::word::Word::Plain;
use crate::words::cut_word;
use lock_table::TableCmd;
use std::alloc::{AllocError, Global};

// The command that a text spells.
pub fn read_table_command(alloc: Global, text: &[u8]) -> Result<TableCmd, TextFault>
    ensures { Reads result (command_of (words_of text.now)) }
{
    let Some((command, args)) = cut_word(text) else {
        return Err(TextFault::NotText);
    };
    if command == b"acquire".as_slice() {
        let (name, owner) = key_and_token(alloc, args)?;
        Ok(TableCmd::Acquire(name, owner))
    } else if command == b"release".as_slice() {
        let (name, owner) = key_and_token(alloc, args)?;
        Ok(TableCmd::Release(name, owner))
    } else if command == b"holder".as_slice() {
        Ok(TableCmd::Holder(key(alloc, args)?))
    } else {
        Err(TextFault::NotText)
    }
}

// Adds the command's text at the end, or nothing.
pub fn push_table_command(cmd: &TableCmd, out: &mut Vec<u8>) -> Result<(), AllocError>
    ensures ok { OnOk result (out.new.items ≡ out.old.items ++ input_text cmd.now) }
    ensures err { OnErr result (out.new.items ≡ out.old.items) }
    ensures is_command { IsTrue (is_command cmd.now) }
{
    match cmd {
        TableCmd::Acquire(name, owner) => push_words(
            out,
            b"acquire",
            &[Plain(name.as_bytes()), Plain(owner.as_bytes())],
        ),
        TableCmd::Release(name, owner) => push_words(
            out,
            b"release",
            &[Plain(name.as_bytes()), Plain(owner.as_bytes())],
        ),
        TableCmd::Holder(name) => push_words(out, b"holder", &[Plain(name.as_bytes())]),
    }
}
