//! The records of a cell: what they claim, and what a change of them creates and destroys.
//!
//! A record is an organization, a group, a project, a user, a key, an address or a domain, and claims
//! one key. A change is looked at by [`Tree::operations_of`], which gives the operations of its lease or
//! the first rule that speaks against it, and is made by [`Tree::apply`]:
//!
//! ```text
//! let mut tree = Tree::new(alloc);
//! tree.apply(alloc, &create_organization, &known)?;   // record 1, `o`
//! tree.apply(alloc, &create_group, &known)?;          // record 2 below it, which claims route `g`
//! tree.apply(alloc, &create_project, &known)?;        // record 3 below that, which claims `g/p`
//! tree.operations_of(alloc, &rename_group, &known)?;  // creates `h` and `h/p`, destroys `g` and `g/p`
//! tree.find_path(b"g/p/issues");                      // Some(3): the longest route that begins the path
//! ```
//!
//! Promised: contracts see [`Tree`] as the tree of `claim_map`'s `specs/State`. The operations are those
//! of its `specs/Claims`, which compare the claims of two whole trees; the rules are those of its
//! `specs/Rules`, in their order, but for the one on attempts and rows, which is the cell's own; the tree
//! after a change is that of its `specs/Records`. [`Tree::add`] adds a record as it is, exactly where
//! `specs/Adding` says that it may be added. After want of memory a tree is as it was.
//!
//! It stands on records in order of identifier, where each parent has a lower one, so a rename passes
//! each record behind its own once and a route is found by climbing; and on a hash table for each
//! bucket, which gives the record that claims a key at the cost of one hash.
//!
//! A caller keeps the ranges that it gives as known: each begins past the one before, and each record is
//! among the first identifiers of them that the tree has used (`specs/Known`).
#![tactic(auto)]

mod adding;
mod apply;
mod changes;
mod index;
mod kinds;
mod listing;
mod paths;
mod places;
mod ranges;
mod routes;
mod rules;
mod tree;
mod walk;

pub use claim_types::{Change, Record, Rule};
pub use tree::Tree;

#[cfg(test)]
mod tests;
