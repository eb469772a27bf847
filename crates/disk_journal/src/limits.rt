/// The greatest size of a file, in bytes: 2^62.
pub const FILE_BYTES: u64 = 4_611_686_018_427_387_904;

/// The length of a journal's header, in bytes, and so the place of its first gate.
pub const HEADER_BYTES: usize = 16;

/// The length of a gate, in bytes.
pub const GATE_BYTES: usize = 1;

/// The size of a journal without a body, in bytes.
pub const FRESH_BYTES: usize = HEADER_BYTES + GATE_BYTES;

/// The room in which a body's length is written, in bytes.
pub const LENGTH_BYTES: usize = 4;

/// The greatest length of a body, in bytes.
pub const BODY_BYTES: usize = 65_536;

/// What a record has besides its body, in bytes: its length and a gate.
pub const FRAME_BYTES: usize = LENGTH_BYTES + GATE_BYTES;

/// The room of a journal's buffer, in bytes: a body of the greatest length, framed.
pub const BUFFER_BYTES: usize = FRAME_BYTES + BODY_BYTES;

/// How many files a folder of files keeps open: two for each node.
pub const OPEN_FILES: usize = 2_000;

/// The room for a file's path, in bytes.
pub const PATH_BYTES: usize = 64;
