use schedule_text::Why;

/// What a line of an image is.
#[derive(Debug, Drop, PartialEq, Eq)]
pub enum ImageLine<X> {
    /// It says this.
    Says(X),
    /// It is refused.
    Refused(Why),
}
