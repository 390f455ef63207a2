/// A word that is printed: bytes, or bytes after the mark `=`.
#[derive(Clone, Copy)]
pub enum Word<'a> {
    Plain(&'a [u8]),
    Marked(&'a [u8]),
}
