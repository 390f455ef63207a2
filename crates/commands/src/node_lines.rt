ghost use Rattle.std.specs.Prelude.{◌≡◌, IfOk};
ghost use Rattle.commands.specs.NodeLines.{config_line, differing, differing_names, refusal_text, slot_text, state_line, turns_line};

use crate::push_numbered;
use line_reader::NEWLINE;
use node_body::Why;
use node_config::ConfigKey;
use node_state::Refusal;
use std::alloc::{AllocError, Global};
use wire_fields::NAME_LEN;

// The line on the output after so many turns.
pub(crate) fn turns_line(alloc: Global, turns: u32) -> Result<Vec<u8>, AllocError>
    ensures { IfOk result (λ text. text.items ≡ turns_line turns) }
{
    let mut text = Vec::new(alloc);
    push_numbered(&mut text, b"turns", u64::from(turns))?;
    text.push(NEWLINE)?;
    Ok(text)
}

// The line that names a key for which a configuration is refused.
pub(crate) fn config_line(alloc: Global, key: ConfigKey) -> Result<Vec<u8>, AllocError>
    ensures { IfOk result (λ text. text.items ≡ config_line key) }
{
    let mut text = b"config: ".to_vec(alloc)?;
    text.extend_from_slice(key.word().as_bytes())?;
    text.push(NEWLINE)?;
    Ok(text)
}

// A word, and the two numbers that differ.
fn differing(alloc: Global, word: &[u8], kept: u8, configured: u8) -> Result<Vec<u8>, AllocError>
    ensures { IfOk result (λ text. text.items ≡ differing word.now kept configured) }
{
    let mut text = Vec::new(alloc);
    push_numbered(&mut text, word, u64::from(kept))?;
    push_numbered(&mut text, b"", u64::from(configured))?;
    Ok(text)
}

// Two names of clusters, in hexadecimal digits.
fn differing_names(
    alloc: Global,
    kept: [u8; NAME_LEN],
    configured: [u8; NAME_LEN],
) -> Result<Vec<u8>, AllocError>
    ensures { IfOk result (λ text. text.items ≡ differing_names kept configured) }
{
    let mut text = b"name ".to_vec(alloc)?;
    text.extend_from_slice(hex::encode(alloc, kept)?.as_bytes())?;
    text.push(b' ')?;
    text.extend_from_slice(hex::encode(alloc, configured)?.as_bytes())?;
    Ok(text)
}

// Why a slot is not one of this node.
fn slot_text(alloc: Global, why: Why) -> Result<Vec<u8>, AllocError>
    ensures { IfOk result (λ text. text.items ≡ slot_text why) }
{
    match why {
        Why::Slot => b"slot".to_vec(alloc),
        Why::Body => b"body".to_vec(alloc),
        Why::Journal => b"journal".to_vec(alloc),
        Why::Stack { kept, configured } => differing(alloc, b"stack", kept, configured),
        Why::Node { kept, configured } => differing(alloc, b"node", kept, configured),
        Why::Cluster { kept, configured } => differing(alloc, b"cluster", kept, configured),
        Why::Name { kept, configured } => differing_names(alloc, kept, configured),
    }
}

// Why areas are refused.
fn refusal_text(alloc: Global, why: Refusal) -> Result<Vec<u8>, AllocError>
    ensures { IfOk result (λ text. text.items ≡ refusal_text why) }
{
    match why {
        Refusal::Selector => b"selector".to_vec(alloc),
        Refusal::Slot(why) => slot_text(alloc, why),
    }
}

// The line that says why areas are refused.
pub(crate) fn state_line(alloc: Global, why: Refusal) -> Result<Vec<u8>, AllocError>
    ensures { IfOk result (λ text. text.items ≡ state_line why) }
{
    let mut text = b"state: ".to_vec(alloc)?;
    text.extend_from_slice(&refusal_text(alloc, why)?)?;
    text.push(NEWLINE)?;
    Ok(text)
}
