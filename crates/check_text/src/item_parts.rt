// The parts of a line of a trace: whether it is an input, its number and its text.
#[derive(Clone, Copy)]
pub(crate) struct ItemParts<'a> {
    pub is_input: bool,
    pub number: &'a [u8],
    pub text: &'a [u8],
}
