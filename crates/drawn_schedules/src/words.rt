use std::alloc::AllocError;

/// Adds a number.
pub(crate) fn push_number(out: &mut Vec<u8>, number: u64) -> Result<(), AllocError> {
    let alloc = *out.allocator();
    out.extend_from_slice(number.to_string(alloc)?.as_bytes())
}

/// Adds a word, and a number after it.
pub(crate) fn push_numbered(out: &mut Vec<u8>, word: &[u8], number: u64) -> Result<(), AllocError> {
    out.extend_from_slice(word)?;
    out.push(b' ')?;
    push_number(out, number)
}

/// Parts what is added next from what stands there.
pub(crate) fn push_comma(out: &mut Vec<u8>) -> Result<(), AllocError> {
    if out.is_empty() {
        Ok(())
    } else {
        out.extend_from_slice(b", ")
    }
}
