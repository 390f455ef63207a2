ghost use Rattle.std.specs.Prelude.{◌≡◌, ◌≤◌, ◌<◌, ◌+◌, length};
ghost use Rattle.check_text.specs.Claims.{image_line, item_line};
ghost use Rattle.check_text.specs.declared.reading.TheConstants.{MAX_LINES};

use check_text::Claim;

// The number of the line of an item of a trace, or of `below` after the last.
pub(crate) fn item_line(place: usize) -> u32
    requires { place ≤ MAX_LINES }
    ensures { result ≡ item_line place }
{
    place as u32 + 1
}

// The number of a line of an image, or of the line after the last.
pub(crate) fn image_line<I: Drop, O: Drop, X: Drop>(claim: &Claim<I, O, X>, place: usize) -> u32
    requires few { length claim.now.trace + length claim.now.image ≤ MAX_LINES }
    requires within { place ≤ length claim.now.image }
    ensures { result ≡ image_line claim.now place }
{
    let header = u32::from(claim.header().is_some());
    claim.trace().len() as u32 + 1 + header + place as u32 + 1
}
