/// The most bytes of an entry: those of a body of a journal.
pub const ENTRY_BYTES: u64 = 65_536;
