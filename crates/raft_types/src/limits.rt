/// The greatest index of a log, and so the greatest number of its entries.
pub const MAX_INDEX: u32 = 1_000_000;

/// The greatest number of entries in one message.
pub const MAX_BATCH: usize = 8;

/// The greatest round of a leader whose reads take no entry of the log: 2^62.
pub const MAX_ROUND: u64 = 4_611_686_018_427_387_904;
