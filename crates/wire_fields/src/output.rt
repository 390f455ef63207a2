ghost use Rattle.std.specs.Prelude.{◌≡◌, ◌∷◌, [], ◌++◌, OnErr, OnOk, length};
ghost use Rattle.wire_fields.specs.Bytes.{number_bytes};
ghost use Rattle.wire_fields.specs.Fields.{flag_byte, key, raw, token_of_length, value};
ghost use Rattle.lists.specs.Prefixes.{IsPrefix};

use byteorder::{ByteOrder, NetworkEndian};
use std::alloc::AllocError;
use vst_base::{Key, Value};

/// Adds a number of one byte at the end, or nothing.
#[tactic(auto, unfolding(crate::specs::Bytes::number_bytes))]
pub fn put_u8(out: &mut Vec<u8>, x: u8) -> Result<(), AllocError>
    ensures ok { OnOk result (out.new.items ≡ out.old.items ++ number_bytes 1 x) }
    ensures err { OnErr result (out.new.items ≡ out.old.items) }
{
    Ok(out.push(x)?)
}

/// Adds a number of two bytes at the end, or nothing.
#[tactic(auto, unfolding(crate::specs::Bytes::number_bytes))]
pub fn put_u16(out: &mut Vec<u8>, x: u16) -> Result<(), AllocError>
    ensures ok { OnOk result (out.new.items ≡ out.old.items ++ number_bytes 2 x) }
    ensures err { OnErr result (out.new.items ≡ out.old.items) }
{
    let mut bytes = [0; 2];
    NetworkEndian::write_u16(&mut bytes, x);
    out.extend_from_slice(&bytes)
}

/// Adds a number of four bytes at the end, or nothing.
#[tactic(auto, unfolding(crate::specs::Bytes::number_bytes))]
pub fn put_u32(out: &mut Vec<u8>, x: u32) -> Result<(), AllocError>
    ensures ok { OnOk result (out.new.items ≡ out.old.items ++ number_bytes 4 x) }
    ensures err { OnErr result (out.new.items ≡ out.old.items) }
{
    let mut bytes = [0; 4];
    NetworkEndian::write_u32(&mut bytes, x);
    out.extend_from_slice(&bytes)
}

/// Adds a number of eight bytes at the end, or nothing.
#[tactic(auto, unfolding(crate::specs::Bytes::number_bytes))]
pub fn put_u64(out: &mut Vec<u8>, x: u64) -> Result<(), AllocError>
    ensures ok { OnOk result (out.new.items ≡ out.old.items ++ number_bytes 8 x) }
    ensures err { OnErr result (out.new.items ≡ out.old.items) }
{
    let mut bytes = [0; 8];
    NetworkEndian::write_u64(&mut bytes, x);
    out.extend_from_slice(&bytes)
}

/// Adds no or yes at the end, or nothing.
pub fn put_flag(out: &mut Vec<u8>, yes: bool) -> Result<(), AllocError>
    ensures ok { OnOk result (out.new.items ≡ out.old.items ++ flag_byte yes ∷ []) }
    ensures err { OnErr result (out.new.items ≡ out.old.items) }
{
    Ok(out.push(u8::from(yes))?)
}

/// Adds a key after its length at the end, or a part of them.
pub fn put_key(out: &mut Vec<u8>, token: &Key) -> Result<(), AllocError>
    ensures ok { OnOk result (out.new.items ≡ out.old.items ++ key.spell token.now) }
    ensures err { OnErr result (IsPrefix out.old.items out.new.items) }
    ensures fits { OnOk result (key.Fits token.now) }
{
    let bytes = token.as_bytes();
    put_u8(out, bytes.len() as u8)?;
    out.extend_from_slice(bytes)
}

/// Adds a byte that says what follows, and a key after its length, at the end, or a part of them.
#[tactic(auto, unfolding(crate::specs::Bytes::number_bytes))]
pub fn put_kind_and_key(out: &mut Vec<u8>, kind: u8, token: &Key) -> Result<(), AllocError>
    ensures ok { OnOk result (out.new.items ≡ out.old.items ++ kind ∷ key.spell token.now) }
    ensures err { OnErr result (IsPrefix out.old.items out.new.items) }
    ensures fits { OnOk result (key.Fits token.now) }
{
    let bytes = token.as_bytes();
    out.extend_from_slice(&[kind, bytes.len() as u8])?;
    out.extend_from_slice(bytes)
}

/// Adds a value after its length at the end, or a part of them.
pub fn put_value(out: &mut Vec<u8>, token: &Value) -> Result<(), AllocError>
    ensures ok { OnOk result (out.new.items ≡ out.old.items ++ value.spell token.now) }
    ensures err { OnErr result (IsPrefix out.old.items out.new.items) }
    ensures fits { OnOk result (value.Fits token.now) }
{
    let bytes = token.as_bytes();
    put_u16(out, bytes.len() as u16)?;
    out.extend_from_slice(bytes)
}

/// Adds bytes as they are at the end, or nothing.
pub fn put_bytes(out: &mut Vec<u8>, bytes: &[u8]) -> Result<(), AllocError>
    ensures ok { OnOk result (out.new.items ≡ out.old.items ++ (raw (length bytes.now)).spell bytes.now) }
    ensures err { OnErr result (out.new.items ≡ out.old.items) }
    ensures fits { OnOk result ((raw (length bytes.now)).Fits bytes.now) }
{
    out.extend_from_slice(bytes)
}
