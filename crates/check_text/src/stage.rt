/// Which part of a claim the next line belongs to.
#[derive(Clone, Copy, Debug, PartialEq, Eq)]
pub(crate) enum Stage {
    /// The trace, or the line `below`.
    Trace,
    /// The header of the image.
    Header,
    /// The image after its header, if it has one.
    Image,
}
