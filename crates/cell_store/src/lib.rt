//! The store of a cell: its records, its outstanding rows, the ranges that it knows and its epoch, over the
//! cell's journal.
//!
//! ```text
//! make(&mut disk, cell)?;
//! let mut store = CellStore::open(alloc, &mut disk, cell)?;               // its next epoch is on the disk
//! store.range_got(alloc, &mut disk, range)?;                              // identifiers for its records
//! store.record(alloc, &mut disk, lease, &change, &operations, version)?;  // change and row, in one entry
//! store.row_gone(&mut disk, lease)?;                                      // the lease is known to be committed
//! ```
//!
//! Promised, of every disk that keeps the rules of its trait:
//!
//! - `record` makes a change and its outstanding row durable in one entry, or neither. It answers the two
//!   versions exactly where the change is refused on the present records or has other operations there, and
//!   then nothing was done;
//! - at every moment of `record`, `row_gone` and `range_got` the file has the entries from before, or these and
//!   the one that the call appends, and at `Ok` it has it. After want of memory all is as it was. After
//!   `Failed` it is in doubt whether the entry stands, and the store is opened again;
//! - `open` keeps what the file's entries stand for, each in its turn, and appends the next epoch before it
//!   answers. It names the first entry that is outside the grammar or not legal in its turn, and looks for an
//!   epoch that is left only where all of them are.
//!
//! The journal is kept on the file with the cell's number, and the bytes of its entries are those of
//! entry_codec. A caller keeps that the file is used by one store alone, and that a live store is handed the
//! disk as its last call left it. It needs to know nothing of the file: what is true of every store is
//! `IsStore` (`specs/Store`).
#![tactic(auto)]

mod fault;
mod opening;
mod rows;
mod state;
mod store;

pub use fault::{CellOpenFault, RecordFault, StoreFault};
pub use store::{CellStore, copy_of_change};

#[cfg(test)]
mod tests;
