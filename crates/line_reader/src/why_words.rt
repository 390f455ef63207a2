ghost use Rattle.std.specs.Prelude.{◌≡◌};
ghost use Rattle.line_reader.specs.Whys.{why_text};

use crate::Why;

impl Why {
    /// Its words.
    pub fn words(self) -> &'static [u8]
        ensures { result.now ≡ why_text self }
    {
        match self {
            Why::LineTooLong => b"line too long",
            Why::TooManyEvents => b"too many events",
            Why::Header => b"header",
            Why::UnknownWord => b"unknown word",
            Why::Number => b"number",
            Why::Text => b"text",
            Why::NotThisNet => b"not this network",
            Why::NoSuchNode => b"no such node",
            Why::NoInputHere => b"no input here",
            Why::NodeDown => b"node down",
            Why::NodeUp => b"node up",
            Why::NoCopy => b"no copy",
            Why::NotFirst => b"not first",
            Why::NodeBusy => b"node busy",
            Why::NodeIdle => b"node idle",
            Why::PairUsed => b"pair used",
        }
    }
}
