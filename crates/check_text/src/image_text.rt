ghost use Rattle.std.specs.Prelude.{◌≡◌, ℕ, List, IfOk};
ghost use Rattle.check_text.specs.declared.image_line.ImageLine.{ImageLine};

use crate::ImageLine;
use std::alloc::{AllocError, Global};

/// What the lines of an image say, but for its header.
pub trait ImageText {
    type Line: Drop;

    /// What a line says.
    ghost says: { List ℕ → ImageLine Self.Line };

    /// What the line says.
    fn read_line(alloc: Global, line: &[u8]) -> Result<ImageLine<Self::Line>, AllocError>
        ensures { IfOk result (λ said. said ≡ says line.now) };
}
