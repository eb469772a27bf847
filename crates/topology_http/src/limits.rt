/// The most bytes of a head.
pub const HEAD_BYTES: usize = 16_384;

/// The most fields of a head.
pub const HEAD_FIELDS: usize = 64;

/// The most digits of a body's length as it is told; the least is 1.
pub const LENGTH_DIGITS: usize = 19;
