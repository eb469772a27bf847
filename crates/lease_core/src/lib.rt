//! The leases of the claim map: who holds each key, which leases are open, and how the others ended.
//!
//! A lease is opened by [`Leases::begin`] where its claims are free, and ends by [`Leases::commit`],
//! which applies it, or by [`Leases::rollback`]:
//!
//! ```text
//! let mut leases = Leases::new(alloc);
//! leases.begin(&given, lease, operations)?;     // Verdict::Fresh: its keys are spoken for
//! leases.commit(lease)?;                        // true: its cell holds the created keys
//! leases.commit(lease)?;                        // false: it was committed before
//! leases.holder(&key);                          // Some(Holding { cell, subject, origin })
//! leases.by_row();                              // the places of all claims, in order
//! ```
//!
//! Promised: each call is exactly a step of the claim map or none, and says which. The verdict of
//! [`Leases::judge`] is that of `claim_map`'s `specs/Verdict`; `begin`, `commit` and `rollback` leave
//! the state that its `specs/Step` says, where `specs/Outcomes` says when; the pages are those of its
//! `specs/Pages`. `begin` takes the room that its lease will need, so `commit` takes no memory, nor does
//! `rollback` of a lease that was begun. After want of memory the state is as it was. It stands on
//! `key_table`, `claim_map` and `claim_types`; its caller keeps the ranges by which it judges.
//!
//! What is known of a key, its holder and the open lease that names it, stands in a hash map
//! (`key_table`), so a begin looks at no other lease. Leases stand in ordered maps, and how many are
//! open is kept for each cell. The places of claims stand in order of cell, bucket, row and key, so
//! that a page costs its items; a begin adds those of its creates, and a page passes over places
//! whose key is not held there (`specs/Kept` says what the parts know of each other).
#![tactic(auto)]

mod by_row;
mod faults;
mod holders;
mod items;
mod judge;
mod lease_map;
mod leases;
mod open_numbers;
mod pages;
mod parts;
mod rows;
#[cfg(test)]
mod tests;

pub use by_row::ByRow;
pub use claim_types::{ClaimItem, ClaimItems, ClaimPage, LeaseIds, LeasePage, Refusal, Verdict};
pub use faults::{BeginFault, CommitFault, RollbackFault};
pub use items::{BegunItem, BegunItems, DoneItem, DoneItems, HeldItem, HeldItems, LeaseParts};
pub use leases::Leases;
pub use rows::RowKey;
