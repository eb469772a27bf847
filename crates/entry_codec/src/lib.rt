//! The bodies of journal entries: what the service and the cells write down, byte by byte.
//!
//! Numbers have their highest byte first. A lease is the 16 bytes of its UUID, a text or a list is
//! its length in one byte and then its bytes or its elements, and a key is its bucket's number and
//! its value:
//!
//! | entry | first byte | then |
//! |---|---|---|
//! | `Begun` | `01` | lease, operations |
//! | `Settled` | `02` | lease, `01` committed or `02` rolled back |
//! | `Given` | `03` | cell (2), number (8), low (8), high (8) |
//! | `Epoch` | `11` | epoch (4) |
//! | `Recorded` | `12` | lease, change, operations |
//! | `RowGone` | `13` | lease |
//! | `Got` | `14` | number (8), low (8), high (8) |
//!
//! Operations are the list of creates and the list of destroyed keys. A create is its key, its
//! subject's kind (1) and identifier (8), its table (1) and its row (8). A change is `01`, kind (1),
//! parent (8), name; or `02`, identifier (8), name; or `03`, identifier (8).
//!
//! ```text
//! let body = write_service(alloc, &entry)?;               // 01 00010000000180008000000000000001 01 ..
//! let again = read_service(alloc, body.as_slice())?;      // the entry
//! ```
//!
//! Promised: a writer gives the entry's one body, as `specs/Spelling` states it; it has 1 to 65,536
//! bytes, as a journal takes it. A reader gives an entry exactly where the body is that entry's, to its
//! last byte, and the entry is within the bounds of `claim_types/specs/EntryBounds`; it gives `None`
//! exactly where there is no such entry. No body is that of two entries ([`one_service_entry`],
//! [`one_cell_entry`]). Whether an entry may come in its turn is no matter of this crate.
//!
//! It stands on `claim_types`, and on `uuid` for the bytes of leases. A caller of a writer keeps that the
//! entry is within its bounds; a reader takes any bytes.
#![tactic(auto)]

mod codes;
mod limits;
mod operations;
mod parts;
mod reading;
mod unread;
mod writing;

pub use claim_types::{CellEntry, ServiceEntry};
pub use limits::ENTRY_BYTES;
pub use reading::{one_cell_entry, one_service_entry, read_cell, read_service};
pub use writing::{write_cell, write_row_gone, write_service};

#[cfg(test)]
mod tests;
