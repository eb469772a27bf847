//! The values of the claim map: keys, leases, operations, ranges, records, and the messages about
//! them.
//!
//! A claim key is a bucket and a value. It is read from a text by the grammar of its bucket, which
//! lower-cases it:
//!
//! ```text
//! let key = ClaimKey::read(alloc, Bucket::Route, b"Acme/App")?;   // the route `acme/app`
//! let lease = LeaseId { cell: 1, epoch: 1, attempt: 1 };
//! lease.to_uuid()                          // 00010000-0001-8000-8000-000000000001
//! ```
//!
//! Promised: [`ClaimKey::read`] gives exactly the key, or the first refusal in order, that
//! `specs/Keys` states for the whole text; [`LeaseId::to_uuid`] and [`LeaseId::from_uuid`] are
//! exact both ways over the bits that `specs/Leases` states; keys and leases compare as `specs/Order`
//! states ([`key_order`], [`lease_order`]), in total orders in which only equal ones tie. Which values,
//! messages and entries are within bounds is stated once, in `specs/Bounds`, `specs/MessageBounds` and
//! `specs/EntryBounds`. Everything else here is plain data.
//!
//! It stands on `cells_base`, and on `uuid` for the texts of leases. A caller of [`LeaseId::to_uuid`] keeps
//! that the lease is within its bounds; no other call has a condition.
#![tactic(auto)]

mod cell;
mod entry;
mod grammar;
mod key;
mod lease;
mod limits;
mod message;
mod operations;
mod order;
mod page;
mod question;
mod record;
mod rule;
mod step;
#[cfg(test)]
mod tests;
mod verdict;

pub use cell::{Cell, Range};
pub use cells_base::{Copied, Items, NoMemory, Text};
pub use entry::{CellEntry, ServiceEntry};
pub use grammar::lowered;
pub use key::{Bucket, ClaimKey, KeyFault};
pub use lease::{Holding, How, LeaseId};
pub use limits::{
    ATTEMPTS_AND_ROWS, BODY, CLAIMS_A_PAGE, FEWEST_LABELS, FINGERPRINT_DIGITS, GREATEST_ATTEMPT,
    GREATEST_CELL, GREATEST_EPOCH, GREATEST_IDENTIFIER, GREATEST_NUMBER, KEY_BYTES, LABEL_BYTES,
    LEASES_A_PAGE, MOST_LABELS, NAME_BYTES, OPEN_LEASES, OPERATIONS, ROUTE_SEGMENTS, SEGMENT_BYTES,
    TEXT_BYTES,
};
pub use message::{BegunResult, CommittedResult, RangedResult, Reply, Request, RolledBackResult};
pub use operations::{Create, Creates, Keys, Operations, Origin, Subject};
pub use order::{key_order, lease_order};
pub use page::{ClaimItem, ClaimItems, ClaimPage, LeaseIds, LeasePage};
pub use question::{Class, Question};
pub use record::{Change, Kind, Record};
pub use rule::{Attempt, Ended, Note, Rule};
pub use step::{Step, Transition};
pub use verdict::{Denial, Refusal, Verdict};
