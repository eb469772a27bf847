//! A journal of bodies on one file of a disk, which no crash takes apart, and the disks that it stands on.
//!
//! - [`Disk`] is files by number, which a crash may tear. Its clauses say what a read gives, what a crash now
//!   may leave of all files, and what a crash since a stated moment may have left of them.
//! - [`MemoryDisk`] tears its files as a real disk may, [`FuseDisk`] stops it at a chosen call, and
//!   [`FileDisk`] is the folder `cells-data`.
//! - [`make`], [`Journal::open`] and [`Journal::append`] keep a list of bodies on one file.
//!
//! ```text
//! make(&mut disk, 0)?;
//! let mut opened = Journal::open(alloc, &mut disk, 0)?;
//! opened.journal.append(&mut disk, b"body")?;     // from here on every crash leaves it
//! let bodies = Journal::open(alloc, &mut disk, 0)?.bodies;
//! ```
//!
//! A journal is the 16 bytes `cells-journal-01`, then for each body a gate other than 0, the body's length in
//! four bytes (the most significant first) and the body of 1 to 65,536 bytes, and then a gate of 0. What
//! stands behind that closed gate does not count, and an opening cuts it. `append` writes the length, the body
//! and a new closed gate behind the closed gate, syncs, writes 1 at the old gate, and syncs.
//!
//! Promised, of every disk that keeps the rules of its trait:
//!
//! - `make` leaves a file in use as it is, at every moment and whatever it answers;
//! - at every moment of `append`, and after its failure, a crash leaves the bodies from before it or these
//!   with the new one, and after its `Ok` these with the new one;
//! - at every moment of `open`, and after each of its answers, a crash leaves bodies that it might have left
//!   at the start; `Ok` gives those that a read gave, and `NotAJournal` names the one place that shows why
//!   there are none, and leaves the file as it is;
//! - each failure has its cause: the disk's count of faults rose, by a call on the journal's file. Where the
//!   disk is steady that far, nothing fails;
//! - the images of every other file stay.
//!
//! After a failed `append` the journal is not live, and its file is opened again. Not promised: that a real
//! file does what the trait says.
//!
//! What layers above say of the entries that they keep in a journal stands in `specs/Entries`, once for every
//! form of entries, and what they need of it in `proofs/Entries`.
//!
//! A caller keeps two things: the journal's file is used by that journal alone, and a body is within its
//! bounds.
#![tactic(auto)]

mod disk;
mod failing;
mod fault;
mod fuse;
mod journal;
mod laws;
mod limits;
mod memory;
mod memory_file;
mod memory_files;
mod real;
mod records;

pub use disk::{Disk, DiskFailed};
pub use failing::FailingCall;
pub use fault::{JournalFault, MakeFault};
pub use fuse::FuseDisk;
pub use journal::{Bodies, Journal, Opened, make};
pub use laws::{one_meaning, one_run};
pub use limits::{BODY_BYTES, FILE_BYTES, FRESH_BYTES};
pub use memory::MemoryDisk;
pub use real::FileDisk;

#[cfg(test)]
mod tests;
