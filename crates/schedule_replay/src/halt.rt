ghost use Rattle.std.specs.Prelude.{◌≡◌};
ghost use Rattle.schedule_replay.specs.Playing.{is_failed_read};

use schedule_text::Why;

/// Where the steps of a schedule came to their end.
#[derive(Clone, Copy, Debug, PartialEq, Eq)]
pub(crate) enum Halt {
    /// The text has no further step.
    End,
    /// A read failed.
    Read,
    /// This line is refused.
    Refused(u32, Why),
}

impl Halt {
    /// Whether a read failed.
    pub fn is_failed_read(self) -> bool
        ensures { result ≡ is_failed_read self }
    {
        matches!(self, Halt::Read)
    }
}
