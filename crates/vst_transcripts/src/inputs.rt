use std::alloc::{AllocError, Global};

/// The bytes that hexadecimal digits spell, if they do.
pub(crate) fn bytes_of(alloc: Global, digits: &str) -> Result<Option<Vec<u8>>, AllocError> {
    match hex::decode(alloc, digits.as_bytes()) {
        Ok(bytes) => Ok(Some(bytes)),
        Err(hex::FromHexError::OutOfMemory) => Err(AllocError),
        Err(_) => Ok(None),
    }
}

// Adds a text and its end so many times.
fn repeat(input: &mut Vec<u8>, many: u64, text: &str, end: &str) -> Result<(), AllocError> {
    for _ in 0..many {
        input.extend_from_slice(text.as_bytes())?;
        input.extend_from_slice(end.as_bytes())?;
    }
    Ok(())
}

// Adds a text so many times, if the word is a number.
fn repeat_by(input: &mut Vec<u8>, word: &str, text: &str, end: &str) -> Result<bool, AllocError> {
    match word.parse::<u64>() {
        Ok(many) => {
            repeat(input, many, text, end)?;
            Ok(true)
        }
        Err(_) => Ok(false),
    }
}

// Adds the bytes that digits spell, if they do.
fn add_bytes(alloc: Global, input: &mut Vec<u8>, digits: &str) -> Result<bool, AllocError> {
    match bytes_of(alloc, digits)? {
        Some(bytes) => {
            input.extend_from_slice(&bytes)?;
            Ok(true)
        }
        None => Ok(false),
    }
}

/// A line of a word and what stands behind the space after it.
pub(crate) fn cut_word(line: &str) -> (&str, &str) {
    match line.split_once(' ') {
        Some((word, rest)) => (word, rest),
        None => (line, ""),
    }
}

/// Adds what a line says that stands behind `|`. Answers whether it can be read.
pub(crate) fn take_input(
    alloc: Global,
    input: &mut Vec<u8>,
    line: &str,
) -> Result<bool, AllocError> {
    let (tag, text) = cut_word(line);
    match tag {
        "" => repeat_by(input, "1", text, "\n"),
        "\\" => repeat_by(input, "1", text, ""),
        "x" => add_bytes(alloc, input, text),
        _ => match tag.strip_prefix("\\*") {
            Some(many) => repeat_by(input, many, text, ""),
            None => match tag.strip_prefix('*') {
                Some(many) => repeat_by(input, many, text, "\n"),
                None => Ok(false),
            },
        },
    }
}
