//! What every layer shares, with no word of the domain in it.
//!
//! - [`Text`] is a run of bytes, and [`Items`] a list of any element. Contracts see both as lists.
//! - [`Copied`] is a value that can be copied into memory of its own, and [`NoMemory`] is the answer
//!   where there is none left.
//! - [`front`] and [`behind`] are the parts of a slice.
//! - `specs/Causes` has the words in which every layer says when a fault may come, `specs/Options` the first
//!   of two that is there, and `proofs/` the lemmas about truth values, lists and finite maps that several
//!   layers need.
//!
//! ```text
//! let name = Text::from_slice(alloc, b"acme")?;
//! let mut names = Items::new(alloc);
//! names.push(name)?;              // contracts: names.new ≡ names.old ++ name ∷ []
//! ```
//!
//! Promised: each call returns what its clause says, and a call that is refused for want of memory
//! leaves its object as it was. It stands on std alone, and its caller keeps nothing but the conditions
//! that a slice has.
#![tactic(auto)]

mod copied;
mod items;
mod memory;
mod slices;
#[cfg(test)]
mod tests;
mod text;

pub use copied::Copied;
pub use items::Items;
pub use memory::NoMemory;
pub use slices::{behind, front};
pub use text::Text;
