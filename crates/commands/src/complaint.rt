use schedule_text::Why;

/// Why a run came to no answer on the output, as the error stream says it.
#[derive(Clone, Copy, Debug, PartialEq, Eq)]
pub enum Complaint {
    /// This condition of a claim, 1 to 8, is false at this line.
    Condition(u8, u32),
    /// The command set does not take the words.
    Words,
    /// This line of the input is the first that is refused.
    Line(u32, Why),
    /// A read of the input failed.
    Read,
    /// Want of memory.
    Memory,
}
