/// What a check says of a claim that is not refused.
#[derive(Clone, Copy, Debug, PartialEq, Eq)]
pub enum Verdict {
    /// The image explains the trace.
    Yes,
    /// The first condition that is false, 1 to 8, and the line at which it is.
    No(u8, u32),
}
