//! Maps from claim keys, at the cost of one hash a look-up, and what the service knows of keys in one:
//! who holds a key, and which open lease names it.
//!
//! ```text
//! let mut keys = Keys::new(alloc);
//! keys.name(&key, lease)?;                  // an open lease speaks for the key
//! keys.claim(&key, holding);                // it holds the key now, and no lease names it
//! keys.holding(Bucket::Route, b"acme");     // Some(holding): no key is built for it
//! ```
//!
//! Promised: contracts see a [`KeyMap`] as a finite map in the order of keys, and each call as a look-up,
//! an insertion or a removal in it. They see [`Keys`] as two finite maps, of the holders and of the naming
//! leases, and each call as an insertion or a removal in them. A key that nobody holds and no lease names
//! has no entry. Only [`KeyMap::put`], [`Keys::name`] and [`Keys::hold`] take memory, and after want of it
//! the maps are as they were.
//!
//! It stands on `claim_types`, and on one hash map for each bucket, over the bytes of the keys' values,
//! whose hasher has a fixed seed: values that are chosen to collide make look-ups slow, and never wrong.
//! A caller of [`KeyMap::change`] and [`Keys::claim`] keeps that the key is there.
#![tactic(auto)]

mod key_map;
mod keys;
mod table;

pub use key_map::KeyMap;
pub use keys::{KeyState, Keys};
