ghost use Rattle.std.specs.Prelude.{◌≡◌, ◌++◌, OnOk};
ghost use Rattle.drawing.specs.Escaping.{escaped, escaped_byte};

use std::alloc::AllocError;

// Adds a byte as it stands in a picture.
fn push_byte(out: &mut Vec<u8>, byte: u8) -> Result<(), AllocError>
    ensures { OnOk result (out.new.items ≡ out.old.items ++ escaped_byte byte) }
{
    match byte {
        b'&' => out.extend_from_slice(b"&amp;"),
        b'<' => out.extend_from_slice(b"&lt;"),
        b'>' => out.extend_from_slice(b"&gt;"),
        b'"' => out.extend_from_slice(b"&quot;"),
        b'\'' => out.extend_from_slice(b"&#39;"),
        _ if byte == b' ' || byte.is_ascii_graphic() => out.extend_from_slice(&[byte]),
        _ => out.extend_from_slice(b"?"),
    }
}

/// Adds a text as it stands in a picture: each byte that has a meaning there by its name, and one that is no visible ASCII or space as
/// a question mark.
pub fn push_escaped(out: &mut Vec<u8>, text: &[u8]) -> Result<(), AllocError>
    ensures { OnOk result (out.new.items ≡ out.old.items ++ escaped text.now) }
{
    for byte in text {
        push_byte(out, *byte)?;
    }
    Ok(())
}
