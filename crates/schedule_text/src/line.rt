use line_reader::Why;
use vst_base::Step;

/// What a line of a schedule after its header is.
#[derive(Debug, Drop, PartialEq, Eq)]
pub enum Line<I> {
    /// It is empty or begins with `#`.
    Skipped,
    /// It is a step.
    IsStep(Step<I>),
    /// It is refused.
    Refused(Why),
}
