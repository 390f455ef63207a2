ghost use Rattle.std.specs.Prelude.{◌≡◌};
ghost use Rattle.line_reader.specs.Lines.{cut_at};
ghost use Rattle.line_reader.specs.Slices.{both};

use memchr::memchr;

/// The byte that ends a line.
pub const NEWLINE: u8 = b'\n';

/// What stands before the first of these bytes and after it. `None` comes exactly where there is none.
pub fn cut_at(bytes: &[u8], at: u8) -> Option<(&[u8], &[u8])>
    ensures { both result ≡ cut_at at bytes.now }
{
    match memchr(at, bytes) {
        Some(place) => {
            let (front, rest) = bytes.split_at(place);
            let (_, after) = rest.split_at(1);
            Some((front, after))
        }
        None => None,
    }
}
