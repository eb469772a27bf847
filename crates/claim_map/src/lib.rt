//! The one global claim map, as definitions alone: who holds each key, which leases are open, recorded
//! or settled, which ranges were given, and the records of each cell. No message in flight, byte, disk
//! or process is in it.
//!
//! It is read in this order, each file short:
//!
//! - `specs/Registry`: the cells of the configuration;
//! - `specs/State`: the claim map and its parts;
//! - `specs/Ranges`: how identifiers are given to cells, in ranges one behind the other;
//! - `specs/Verdict`: when claims are free, and what a begin comes to;
//! - `specs/Records`: what a change does to a cell's records;
//! - `specs/Step`: what each step does to the claim map;
//! - `specs/Pages`: the pages in which open leases and held claims are listed;
//! - `specs/Classification`: the cell that a question is answered with;
//! - `specs/Due`: which step and which reply the service owes to a request;
//! - `specs/Entries`: which steps the service writes down, and as what;
//! - `specs/Claims`: what records claim, and the operations of a change;
//! - `specs/Rules`: when a change is refused;
//! - `specs/Legal`: which steps a message may bring about, and the runs of such steps;
//! - `specs/Sound`: what stays true of the claim map;
//! - `specs/Trees`: what stays true of a cell's tree, with the ranges that it knows;
//! - `specs/Bounds`: the configurations and the claim maps that are within their bounds.
//!
//! ```text
//! due registry state (Begin lease operations)     -- the step, if any, and the reply
//! after state step                                -- the claim map after it
//! ```
//!
//! Promised here, as laws of these definitions:
//!
//! - [`fresh_is_free`]: a begin that comes to be fresh is of a new lease with well-formed operations
//!   whose claims are free;
//! - [`ranges_stay_sound`]: the ranges given stay one behind the other, whatever range is asked for;
//! - [`due_is_within_bounds`]: what is due to a request within its bounds, in a claim map within its
//!   bounds, is so too, and so are the claim map after it and the entry that is written down;
//! - [`operations_are_within_bounds`]: the operations of a change that no rule refuses are well formed
//!   and within their bounds.
//!
//! Examples of claims, of operations and of each record rule compute in `proofs/Examples` and
//! `proofs/ExamplesOfRules`. That the protocol takes legal steps alone is the law of `claim_laws`.
//!
//! The crates above promise that what they do is what these definitions say. It stands on the values of
//! `claim_types`; there is no code to call here.
#![tactic(auto)]

mod laws;

pub use laws::{
    due_is_within_bounds, fresh_is_free, operations_are_within_bounds, ranges_stay_sound,
};
