ghost use Rattle.std.specs.Prelude.{◌≡◌, IfOk};
ghost use Rattle.wire_fields.specs.Formats.{IsFormat};
ghost use Rattle.wire_messages.specs.EntryBytes.{old_entry};
ghost use Rattle.wire_messages.specs.Wires.{HasOneSpelling, read_whole};

use crate::Wire;
use std::alloc::{AllocError, Global};
use wire_fields::Input;

/// The message that all of the bytes are, and `None` where they are none.
pub fn from_bytes<M: Wire>(alloc: Global, bytes: &[u8]) -> Result<Option<M>, AllocError>
    ensures { IfOk result (λ message. message ≡ read_whole M.format bytes.now) }
{
    let mut input = Input::new(bytes);
    let Some(message) = M::take(alloc, &mut input)? else {
        return Ok(None);
    };
    match input.rest() {
        [] => Ok(Some(message)),
        _ => Ok(None),
    }
}

/// Messages have one spelling, in front of other bytes and alone.
pub fn messages_have_one_spelling<M: Wire>()
    ensures in_front { IsFormat M.format }
    ensures alone { HasOneSpelling M.format }
{}

/// Entries of version 1 have one spelling too.
pub fn old_entries_have_one_spelling<C: Wire>()
    ensures { IsFormat (old_entry C.format) }
{}
