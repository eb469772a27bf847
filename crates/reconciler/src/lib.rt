//! The agent of a cell: it draws leases and asks for them, records what was granted and only that, ends what
//! waited too long, and mends what a stop left half done.
//!
//! ```text
//! let store = CellStore::open(alloc, &mut disk, cell)?;
//! let mut agent = CellAgent::new(alloc, store, threshold);
//! let begin = agent.ask_change(alloc, change, now)?;           // its attempt waits for an answer
//! let outcome = agent.receive(alloc, &mut disk, &reply, now)?; // granted: change and row are on the disk
//! outcome.to_send                                              // and now the commit may be sent
//! while let Some(lease) = agent.expire(now) { .. }             // what waited too long ends,
//! agent.ask_reconcile(alloc)?                                  // and each row and open lease is asked for
//! ```
//!
//! Promised, of every disk that keeps the rules of its trait (the definitions are those of a cell in
//! `specs/Nodes` of claim_laws):
//!
//! - `receive` does what `hears` says: what the agent keeps, its records, the attempt that ended, and the
//!   requests to send, in order. A change is recorded only for an attempt that waits, and only where it still
//!   has the operations that its lease was asked for; a late answer changes nothing and sends nothing;
//! - at every moment of it the cell's file has the entries from before, or these and the one that is due; at
//!   `Ok` it has that entry, so no request is sent before what it rests on is durable. After want of memory
//!   nothing was done. `Failed` comes only where an entry was due and the disk's count of faults rose at this
//!   file; whether the entry stands is then in doubt, and the store is opened again;
//! - `ask_change` answers the rules of records in their order, and then that on attempts and rows; a lease is
//!   drawn only at `Ok`. `expire` ends the least attempt that is due, and takes no memory. `ask_reconcile` asks
//!   for a commit of each row in order of lease, and then for the first page of the open leases.
//!
//! It stands on the store of the cell (cell_store), which keeps all that outlives a stop. What waits for an
//! answer stands in memory alone: after a stop no attempt waits, and the leases of lost attempts are rolled
//! back when a page lists them. What is true of every agent is `IsAgent` (`specs/Agent`). A caller keeps that
//! a reply is within its bounds and handed to the cell that it is for, and that a live agent is handed the disk
//! as its last call left it.
#![tactic(auto)]

mod agent;
mod attempts;
mod outcome;
#[cfg(test)]
mod tests;

pub use agent::CellAgent;
pub use claim_types::Ended;
pub use outcome::{AgentFault, Outcome, Requests, copy_of_denial};
