//! The configuration of cells, and the ranges of identifiers that were given to them.
//!
//! A configuration is a text in TOML, which names 1 to 16 cells:
//!
//! ```text
//! [service]
//! threshold = 600                 # seconds, 1 to 86,400; 600 where it is absent
//!
//! [[cell]]
//! id = 1                          # 1 to 999, no two cells the same
//! prefix = "cell-1-"              # 1 to 32 of a-z 0-9 - _, none equal to another or its beginning
//! width = 1000                    # how many identifiers a range of the cell has
//! ```
//!
//! ```text
//! let registry = Registry::read_toml(alloc, text)?;       // or the first fault, with its number
//! let mut ranges = Ranges::new(alloc);
//! ranges.give(&registry, 1, 1)?;                          // Range { cell: 1, number: 1, low: 1, high: 1000 }
//! ranges.give(&registry, 1, 1)?;                          // the same range again
//! ranges.covers(1, 1000);                                 // true
//! ```
//!
//! Unknown keys are ignored, and so are tables `[[rule]]`.
//!
//! Promised: [`Registry::read_toml`] gives exactly the configuration, or the first fault, that
//! `specs/Reading` says of the tree that `toml` reads; each [`Registry`] is as `specs/Bounds` says.
//! [`Ranges::give`] and [`Ranges::add`] do what the claim map's `specs/Ranges` says, and each [`Ranges`]
//! is a list in which each range follows those before it. After want of memory all is as it was.
//!
//! It stands on `claim_map` and `claim_types`, and on `toml` for the tree of a text. A caller of
//! [`Ranges::give`] keeps that the number is at least 1, and one of [`Registry::from_cells`] that the cells
//! are within `specs/Bounds`.
#![tactic(auto)]

mod bounds;
mod clash;
mod fault;
mod limits;
mod ranges;
mod read;
mod registry;
#[cfg(test)]
mod tests;

pub use claim_types::{Cell, Range};
pub use fault::{Name, RangeFault, RegistryFault};
pub use limits::{CELLS, DEFAULT_THRESHOLD, GREATEST_THRESHOLD, PREFIX_BYTES};
pub use ranges::{Asked, Ranges};
pub use registry::{Cells, Registry};
