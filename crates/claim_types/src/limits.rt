/// The most operations that one lease may carry, creates and destroys together.
pub const OPERATIONS: u64 = 64;

/// The most bytes of a message body, and so of a line that `replay` reads.
pub const BODY: u64 = 32_768;

/// The most leases that one cell may have open.
pub const OPEN_LEASES: u64 = 4_096;

/// The most attempts that wait and outstanding rows of one cell, together.
pub const ATTEMPTS_AND_ROWS: u64 = 4_096;

/// The greatest identifier of a record; the least is 1.
pub const GREATEST_IDENTIFIER: u64 = 9_223_372_036_854_775_807;

/// The greatest number of a cell; the least is 1.
pub const GREATEST_CELL: u16 = 999;

/// The greatest epoch of a cell; the least is 1.
pub const GREATEST_EPOCH: u32 = 4_294_967_295;

/// The greatest number of an attempt; the least is 1.
pub const GREATEST_ATTEMPT: u64 = 4_611_686_018_427_387_903;

/// The greatest number of 64 bits: of a range, of a row that may be asked for, and of a tree's version.
pub const GREATEST_NUMBER: u64 = 18_446_744_073_709_551_615;

/// The most bytes of a claim key's value.
pub const KEY_BYTES: u64 = 255;

/// The most bytes of a segment of a path.
pub const SEGMENT_BYTES: u64 = 63;

/// The most segments of a route; the least is 1.
pub const ROUTE_SEGMENTS: u64 = 20;

/// The most bytes of a label of a domain.
pub const LABEL_BYTES: u64 = 63;

/// The fewest labels of a domain.
pub const FEWEST_LABELS: u64 = 2;

/// The most labels of a domain.
pub const MOST_LABELS: u64 = 8;

/// The digits of the fingerprint of an SSH key.
pub const FINGERPRINT_DIGITS: u64 = 64;

/// The most bytes of a record's name; the least is 1.
pub const NAME_BYTES: u64 = 255;

/// The most bytes of a text or a path that is asked for.
pub const TEXT_BYTES: u64 = 2_048;

/// The most leases of one page.
pub const LEASES_A_PAGE: u64 = 100;

/// The most claims of one page.
pub const CLAIMS_A_PAGE: u64 = 64;
