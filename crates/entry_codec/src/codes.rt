//! The bytes that stand for the kinds of entries and changes. They are the numbers of
//! `specs/Spelling`. A new kind of entry takes a new first byte here.

// The first byte of an entry of the service.
pub const BEGUN: u8 = 0x01;

pub const SETTLED: u8 = 0x02;

pub const GIVEN: u8 = 0x03;

// The first byte of an entry of a cell.
pub const EPOCH: u8 = 0x11;

pub const RECORDED: u8 = 0x12;

pub const ROW_GONE: u8 = 0x13;

pub const GOT: u8 = 0x14;

// The first byte of a change.
pub const CREATE: u8 = 0x01;

pub const RENAME: u8 = 0x02;

pub const REMOVE: u8 = 0x03;

// How a lease ended.
pub const COMMITTED: u8 = 0x01;

pub const ROLLED_BACK: u8 = 0x02;
