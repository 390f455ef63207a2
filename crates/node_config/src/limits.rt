/// The greatest number of bytes of a configuration.
pub const MAX_CONFIG: usize = 65_536;

/// The greatest number of clients that a configuration names.
pub const MAX_CLIENTS: usize = 255;

/// The greatest number of milliseconds of a period.
pub const MAX_PERIOD: u32 = 60_000;
