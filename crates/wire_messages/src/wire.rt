ghost use Rattle.std.specs.Prelude.{◌≡◌, ◌++◌, OnErr, OnOk};
ghost use Rattle.wire_fields.specs.Formats.{Format, IsFormat};
ghost use Rattle.wire_messages.specs.Wires.{Takes};
ghost use Rattle.lists.specs.Prefixes.{IsPrefix};

use std::alloc::{AllocError, Global};
use wire_fields::Input;

/// What is sent as bytes: each value has one spelling, and stands in front of others.
pub trait Wire: Drop {
    /// Which values have bytes, their bytes, and which value stands in front of others.
    ghost format: { Format Self };

    /// Adds the value's bytes at the end, or a part of them.
    fn put(&self, out: &mut Vec<u8>) -> Result<(), AllocError>
        ensures ok { OnOk result (out.new.items ≡ out.old.items ++ format.spell self.now) }
        ensures fits { OnOk result (format.Fits self.now) }
        ensures err { OnErr result (IsPrefix out.old.items out.new.items) };

    /// The value whose bytes stand in front, and `None` where none does. What is left of the input after a `None` or
    /// an `Err` is not said.
    fn take(alloc: Global, input: &mut Input<'_>) -> Result<Option<Self>, AllocError>
        ensures { Takes format input.old input.new result };

    /// What is put reads back, and what is read has no other bytes.
    ghost is_format: { IsFormat format };
}
