//! Where a request belongs: the class of a question, from the leases and the configuration.
//!
//! ```text
//! classify(&leases, &registry, &Question::First)              // the first cell
//! classify(&leases, &registry, &Question::Path { text })      // the cell that holds `acme`, for the text `acme/x/y`
//! ```
//!
//! Promised: [`classify`] gives exactly the class that `claim_map`'s `specs/Classification` states, and
//! takes no memory. A path costs one look-up for each of its segments, and at most twenty: no key has
//! more.
//!
//! It stands on `lease_core` and `cell_registry`. Its caller keeps what a service keeps: every held key is
//! one that its bucket reads.
#![tactic(auto)]

mod question;
#[cfg(test)]
mod tests;

pub use question::classify;
