//! Operations, read from the front of the bytes.
ghost use Rattle.std.specs.Prelude.{◌≡◌, ◌++◌, map};
ghost use Rattle.std.specs.List.{list_any};
ghost use Rattle.claim_types.specs.Operations.{keys_of};
ghost use Rattle.claim_types.specs.Order.{key_eq};
ghost use Rattle.entry_codec.specs.Reading as reading;
ghost use Rattle.entry_codec.specs.Reading.{Gives};

use crate::parts::{byte_at, key_at, origin_at, subject_at};
use crate::unread::Unread;
use claim_types::{ClaimKey, Create, Items, OPERATIONS, Operations};
use std::alloc::Global;

#[tactic(auto, unfolding(crate::specs::Reading::create_at))]
fn create_at(alloc: Global, bytes: &[u8]) -> Result<(Create, &[u8]), Unread>
    ensures { Gives (λ x. (x.0, x.1.now)) result (reading.create_at bytes.now) }
{
    let (key, rest) = key_at(alloc, bytes)?;
    let (subject, rest) = subject_at(rest)?;
    let (origin, rest) = origin_at(rest)?;
    let create = Create {
        key,
        subject,
        origin,
    };
    Ok((create, rest))
}

fn creates_of(alloc: Global, count: u8, bytes: &[u8]) -> Result<(Vec<Create>, &[u8]), Unread>
    ensures { Gives (λ x. (x.0.items, x.1.now)) result (reading.repeated reading.create_at count bytes.now) }
{
    let mut creates = Vec::with_capacity(alloc, count as usize)?;
    let mut rest = bytes;
    for _ in 0..count {
        let (create, after) = create_at(alloc, rest)?;
        creates.push(create)?;
        rest = after;
    }
    Ok((creates, rest))
}

fn keys_of(alloc: Global, count: u8, bytes: &[u8]) -> Result<(Vec<ClaimKey>, &[u8]), Unread>
    ensures { Gives (λ x. (x.0.items, x.1.now)) result (reading.repeated reading.key_at count bytes.now) }
{
    let mut keys = Vec::with_capacity(alloc, count as usize)?;
    let mut rest = bytes;
    for _ in 0..count {
        let (key, after) = key_at(alloc, rest)?;
        keys.push(key)?;
        rest = after;
    }
    Ok((keys, rest))
}

#[tactic(auto, unfolding(crate::specs::Reading::list_at))]
fn creates_at(alloc: Global, bytes: &[u8]) -> Result<(Vec<Create>, &[u8]), Unread>
    ensures { Gives (λ x. (x.0.items, x.1.now)) result (reading.list_at reading.create_at bytes.now) }
{
    let (count, rest) = byte_at(bytes)?;
    creates_of(alloc, count, rest)
}

#[tactic(auto, unfolding(crate::specs::Reading::list_at))]
fn keys_at(alloc: Global, bytes: &[u8]) -> Result<(Vec<ClaimKey>, &[u8]), Unread>
    ensures { Gives (λ x. (x.0.items, x.1.now)) result (reading.list_at reading.key_at bytes.now) }
{
    let (count, rest) = byte_at(bytes)?;
    keys_of(alloc, count, rest)
}

fn is_among(keys: &[ClaimKey], key: &ClaimKey) -> bool
    ensures { result ≡ list_any (λ other. key_eq key.now other) keys.now }
{
    keys.iter().any(|other| *key == *other)
}

fn is_created(creates: &[Create], key: &ClaimKey) -> bool
    ensures { result ≡ list_any (λ other. key_eq key.now other.key) creates.now }
{
    creates.iter().any(|other| *key == other.key)
}

fn are_keys_distinct(keys: &[ClaimKey]) -> bool
    ensures { result ≡ reading.are_distinct keys.now }
{
    for (index, key) in keys.iter().enumerate() {
        if is_among(&keys[index + 1..], key) {
            return false;
        }
    }
    true
}

// Whether the keys of the creates are distinct, and none of them is among the others.
fn are_creates_distinct(creates: &[Create], others: &[ClaimKey]) -> bool
    ensures { result ≡ reading.are_creates_distinct creates.now others.now }
{
    for (index, create) in creates.iter().enumerate() {
        if is_created(&creates[index + 1..], &create.key) {
            return false;
        }
        if is_among(others, &create.key) {
            return false;
        }
    }
    true
}

fn are_well_formed(ops: &Operations) -> bool
    ensures { result ≡ reading.are_well_formed ops.now }
{
    let count = ops.creates.len().saturating_add(ops.destroys.len()) as u64;
    if count < 1 || OPERATIONS < count {
        return false;
    }
    if !are_creates_distinct(ops.creates.as_slice(), ops.destroys.as_slice()) {
        return false;
    }
    are_keys_distinct(ops.destroys.as_slice())
}

/// The operations at the front of the bytes.
#[tactic(auto, unfolding(crate::specs::Reading::operations_at))]
pub fn operations_at(alloc: Global, bytes: &[u8]) -> Result<(Operations, &[u8]), Unread>
    ensures { Gives (λ x. (x.0, x.1.now)) result (reading.operations_at bytes.now) }
{
    let (creates, rest) = creates_at(alloc, bytes)?;
    let (destroys, rest) = keys_at(alloc, rest)?;
    let ops = Operations {
        creates: Items::from_vec(creates),
        destroys: Items::from_vec(destroys),
    };
    if are_well_formed(&ops) {
        return Ok((ops, rest));
    }
    Err(Unread::OutsideGrammar)
}
