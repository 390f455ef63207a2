/// What a piece of a line, taken from what was read ahead, ends with.
#[derive(Clone, Copy, Debug, PartialEq, Eq)]
pub(crate) enum Piece {
    /// Its newline: the line is whole.
    Newline,
    /// The last byte that was read ahead: the line goes on.
    GoesOn,
    /// The line's 4,097th byte: the line is too long.
    TooLong,
}
