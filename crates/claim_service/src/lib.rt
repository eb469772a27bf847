//! The service: it answers requests by what is due to them in the claim map, and keeps on its file what it did.
//!
//! ```text
//! make(&mut disk, SERVICE_FILE)?;
//! let mut node = TopologyNode::open(alloc, &mut disk, &registry)?;
//! let handled = node.handle(alloc, &mut disk, &registry, &request)?;     // its entry is on the disk
//! handled.reply                                                          // what is due
//! handled.fresh                                                          // whether an entry was appended
//! ```
//!
//! - [`ServiceState`] is what the service keeps, in memory. `take` does what is due to a request (`due` of
//!   claim_map) and gives the reply and the body of the entry; `enter` does what an entry is written down for,
//!   where it is legal in its turn (`service_turn` of claim_laws). A replay stands on it alone.
//! - [`TopologyNode`] is that state over a journal on file [`SERVICE_FILE`].
//!
//! Promised, of every disk that keeps the rules of its trait:
//!
//! - `handle` answers the reply that is due, keeps what the due step leaves, and appends one entry exactly
//!   where the step is written down; a repeat appends nothing. At every moment the file has the entries from
//!   before or these and the one that is due, and at `Ok` it has it. After want of memory all is as it was.
//!   `Failed` comes only where an entry was due and the disk's count of faults rose on this file; whether the
//!   entry stands is then in doubt, and the node is opened again;
//! - `open` keeps what the file's entries stand for, each in its turn. It names the first entry that is outside
//!   the grammar or not legal in its turn, and after that the first cell that the entries name and the
//!   configuration lacks. At every moment the file has entries that it might have had at the start.
//!
//! The bytes of entries are those of entry_codec. A caller keeps that the service's file is used by one node
//! alone, that a live node is handed the disk as its last call left it, and that requests and the
//! configuration are within their bounds.
#![tactic(auto)]

mod limits;
mod node;
mod opening;
mod state;

pub use limits::SERVICE_FILE;
pub use node::{Handled, NodeError, TopologyNode};
pub use opening::ServiceOpenFault;
pub use state::{Answered, ServiceState, copy_of_question};

#[cfg(test)]
mod tests;
