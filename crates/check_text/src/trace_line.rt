use schedule_text::Why;
use vst_base::Item;

/// What a line of a claimed trace is, or the line below it.
#[derive(Debug, Drop, PartialEq, Eq)]
pub(crate) enum TraceLine<I, O> {
    /// It is the line `below`.
    Below,
    /// It is an input or an output.
    IsItem(Item<I, O>),
    /// It is refused.
    Refused(Why),
}
