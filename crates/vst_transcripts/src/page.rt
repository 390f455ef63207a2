use std::alloc::{AllocError, Global};

/// How many bytes stand in a line in hexadecimal digits.
const BYTES_A_LINE: usize = 32;

/// A text that grows.
#[derive(Drop)]
pub(crate) struct Page {
    bytes: Vec<u8>,
}

impl Page {
    /// An empty one.
    pub(crate) fn new(alloc: Global) -> Self {
        Page {
            bytes: Vec::new(alloc),
        }
    }

    /// Its bytes.
    pub(crate) fn bytes(&self) -> &[u8] {
        &self.bytes
    }

    /// Adds a text as it stands.
    pub(crate) fn add(&mut self, text: &str) -> Result<(), AllocError> {
        self.bytes.extend_from_slice(text.as_bytes())
    }

    /// Adds a text that is a line.
    pub(crate) fn add_line(&mut self, text: &str) -> Result<(), AllocError> {
        self.add(text)?;
        self.add("\n")
    }

    /// Adds another page.
    pub(crate) fn add_page(&mut self, other: &Page) -> Result<(), AllocError> {
        self.bytes.extend_from_slice(&other.bytes)
    }

    /// Adds a number behind a text.
    pub(crate) fn add_number(&mut self, text: &str, number: u64) -> Result<(), AllocError> {
        let alloc = *self.bytes.allocator();
        self.add(text)?;
        self.bytes
            .extend_from_slice(number.to_string(alloc)?.as_bytes())
    }

    // Adds bytes in hexadecimal digits.
    fn add_digits(&mut self, bytes: &[u8]) -> Result<(), AllocError> {
        let alloc = *self.bytes.allocator();
        self.bytes
            .extend_from_slice(hex::encode(alloc, bytes)?.as_bytes())
    }

    /// Adds bytes behind a text in hexadecimal digits, and ends the line. After the first 32 bytes each 32 stand in a line of their own.
    pub(crate) fn add_hex(&mut self, text: &str, bytes: &[u8]) -> Result<(), AllocError> {
        self.add(text)?;
        let mut is_first = true;
        for piece in bytes.chunks(BYTES_A_LINE) {
            self.add(if is_first { "" } else { "\n  " })?;
            self.add_digits(piece)?;
            is_first = false;
        }
        self.add(if is_first { "-\n" } else { "\n" })
    }

    // Adds a byte as it prints.
    fn add_byte(&mut self, byte: u8) -> Result<(), AllocError> {
        match byte {
            b'\\' => self.add("\\\\"),
            b'\n' => self.add("\\n"),
            b' '..=b'~' => Ok(self.bytes.push(byte)?),
            _ => {
                self.add("\\x")?;
                self.add_digits(&[byte])
            }
        }
    }

    /// Adds bytes as they print, a newline as `\n`.
    pub(crate) fn add_shown(&mut self, bytes: &[u8]) -> Result<(), AllocError> {
        for byte in bytes {
            self.add_byte(*byte)?;
        }
        Ok(())
    }

    /// Adds each line of a text behind a mark. A lone backslash ends a last line that has no newline.
    pub(crate) fn add_marked(&mut self, mark: &str, text: &[u8]) -> Result<(), AllocError> {
        let mut is_start = true;
        for byte in text {
            if is_start {
                self.add(mark)?;
            }
            is_start = *byte == b'\n';
            if is_start {
                self.add("\n")?;
            } else {
                self.add_byte(*byte)?;
            }
        }
        self.add(if is_start { "" } else { "\\\n" })
    }
}
