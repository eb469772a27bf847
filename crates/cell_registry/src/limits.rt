/// The most cells that a configuration may name; the least is 1.
pub const CELLS: u64 = 16;

/// The most bytes of a cell's prefix; the least is 1.
pub const PREFIX_BYTES: u64 = 32;

/// The age in seconds from which an attempt may be ended, where the configuration gives none.
pub const DEFAULT_THRESHOLD: u64 = 600;

/// The greatest such age in seconds; the least is 1.
pub const GREATEST_THRESHOLD: u64 = 86_400;
