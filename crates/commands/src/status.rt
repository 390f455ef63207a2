/// The status of a command that came to its end.
pub const DONE: u8 = 0;

/// A condition of a claim is false.
pub const CONDITION_FALSE: u8 = 1;

/// The words are refused.
pub const WORDS_REFUSED: u8 = 2;

/// A line, or the configuration, is refused.
pub const INPUT_REFUSED: u8 = 3;

/// Reading the input failed.
pub const READ_FAILED: u8 = 4;

/// Writing the output, or a line on the error stream, failed.
pub const WRITE_FAILED: u8 = 5;

/// The device of a node could not begin, or a receive failed.
pub const LISTENING_FAILED: u8 = 6;

/// A store call of a node failed.
pub const STORE_FAILED: u8 = 7;

/// Want of memory.
pub const OUT_OF_MEMORY: u8 = 8;

/// The areas of a node are refused.
pub const AREAS_REFUSED: u8 = 9;
