//! The parts that an entry is made of. Each call reads one from the front of the bytes, and gives
//! it with the bytes behind it.
ghost use Rattle.std.specs.Prelude.{◌≡◌, length};
ghost use Rattle.std.specs.Int.{w16, w32, w64};
ghost use Rattle.claim_types.specs.Leases.{lease_in};
ghost use Rattle.entry_codec.specs.Reading as reading;
ghost use Rattle.entry_codec.specs.Reading.{Gives};

use crate::codes::{COMMITTED, ROLLED_BACK};
use crate::unread::Unread;
use claim_types::{
    Bucket, ClaimKey, GREATEST_CELL, GREATEST_IDENTIFIER, How, KeyFault, Kind, LeaseId, Origin,
    Range, Subject, Text,
};
use std::alloc::Global;
use uuid::Uuid;

// The bytes of a lease, which are those of its UUID.
const LEASE_BYTES: usize = 16;

/// A byte.
pub fn byte_at(bytes: &[u8]) -> Result<(u8, &[u8]), Unread>
    ensures { Gives (λ x. (x.0, x.1.now)) result (reading.byte_at bytes.now) }
{
    match bytes {
        [] => Err(Unread::OutsideGrammar),
        [byte, rest @ ..] => Ok((*byte, rest)),
    }
}

#[tactic(auto, unfolding(crate::specs::Reading::bytes_at))]
fn bytes_at(count: usize, bytes: &[u8]) -> Result<(&[u8], &[u8]), Unread>
    ensures { Gives (λ x. (x.0.now, x.1.now)) result (reading.bytes_at count bytes.now) }
{
    if bytes.len() < count {
        return Err(Unread::OutsideGrammar);
    }
    let (front, rest) = bytes.split_at(count);
    Ok((front, rest))
}

#[tactic(auto, unfolding(crate::specs::Reading::bytes_at, crate::specs::Reading::number_at))]
fn u16_at(bytes: &[u8]) -> Result<(u16, &[u8]), Unread>
    ensures { Gives (λ x. (x.0, x.1.now)) result (reading.number_at w16 bytes.now) }
{
    if bytes.len() < 2 {
        return Err(Unread::OutsideGrammar);
    }
    let (front, rest) = bytes.split_at(2);
    let number = u16::from_be_bytes([front[0], front[1]]);
    Ok((number, rest))
}

#[tactic(auto, unfolding(crate::specs::Reading::bytes_at, crate::specs::Reading::number_at))]
fn u32_at(bytes: &[u8]) -> Result<(u32, &[u8]), Unread>
    ensures { Gives (λ x. (x.0, x.1.now)) result (reading.number_at w32 bytes.now) }
{
    if bytes.len() < 4 {
        return Err(Unread::OutsideGrammar);
    }
    let (front, rest) = bytes.split_at(4);
    let number = u32::from_be_bytes([front[0], front[1], front[2], front[3]]);
    Ok((number, rest))
}

#[tactic(auto, unfolding(crate::specs::Reading::bytes_at, crate::specs::Reading::number_at))]
fn u64_at(bytes: &[u8]) -> Result<(u64, &[u8]), Unread>
    ensures { Gives (λ x. (x.0, x.1.now)) result (reading.number_at w64 bytes.now) }
{
    if bytes.len() < 8 {
        return Err(Unread::OutsideGrammar);
    }
    let (front, rest) = bytes.split_at(8);
    let number = u64::from_be_bytes([
        front[0], front[1], front[2], front[3], front[4], front[5], front[6], front[7],
    ]);
    Ok((number, rest))
}

#[tactic(auto, unfolding(crate::specs::Reading::text_at))]
fn text_at(bytes: &[u8]) -> Result<(&[u8], &[u8]), Unread>
    ensures { Gives (λ x. (x.0.now, x.1.now)) result (reading.text_at bytes.now) }
{
    let (count, rest) = byte_at(bytes)?;
    bytes_at(count as usize, rest)
}

/// The identifier of a record, in 8 bytes.
#[tactic(auto, unfolding(crate::specs::Reading::identifier_at))]
pub fn identifier_at(bytes: &[u8]) -> Result<(u64, &[u8]), Unread>
    ensures { Gives (λ x. (x.0, x.1.now)) result (reading.identifier_at bytes.now) }
{
    let (id, rest) = u64_at(bytes)?;
    if 1 <= id && id <= GREATEST_IDENTIFIER {
        return Ok((id, rest));
    }
    Err(Unread::OutsideGrammar)
}

/// An identifier or 0, in 8 bytes.
#[tactic(auto, unfolding(crate::specs::Reading::parent_at))]
pub fn parent_at(bytes: &[u8]) -> Result<(u64, &[u8]), Unread>
    ensures { Gives (λ x. (x.0, x.1.now)) result (reading.parent_at bytes.now) }
{
    let (id, rest) = u64_at(bytes)?;
    if id <= GREATEST_IDENTIFIER {
        return Ok((id, rest));
    }
    Err(Unread::OutsideGrammar)
}

/// The number of a cell, in 2 bytes.
#[tactic(auto, unfolding(crate::specs::Reading::cell_at))]
pub fn cell_at(bytes: &[u8]) -> Result<(u16, &[u8]), Unread>
    ensures { Gives (λ x. (x.0, x.1.now)) result (reading.cell_at bytes.now) }
{
    let (cell, rest) = u16_at(bytes)?;
    if 1 <= cell && cell <= GREATEST_CELL {
        return Ok((cell, rest));
    }
    Err(Unread::OutsideGrammar)
}

/// The number of a range, from 1, in 8 bytes.
#[tactic(auto, unfolding(crate::specs::Reading::range_number_at))]
pub fn range_number_at(bytes: &[u8]) -> Result<(u64, &[u8]), Unread>
    ensures { Gives (λ x. (x.0, x.1.now)) result (reading.range_number_at bytes.now) }
{
    let (number, rest) = u64_at(bytes)?;
    if 1 <= number {
        return Ok((number, rest));
    }
    Err(Unread::OutsideGrammar)
}

/// An epoch, from 1, in 4 bytes.
#[tactic(auto, unfolding(crate::specs::Reading::epoch_at))]
pub fn epoch_at(bytes: &[u8]) -> Result<(u32, &[u8]), Unread>
    ensures { Gives (λ x. (x.0, x.1.now)) result (reading.epoch_at bytes.now) }
{
    let (epoch, rest) = u32_at(bytes)?;
    if 1 <= epoch {
        return Ok((epoch, rest));
    }
    Err(Unread::OutsideGrammar)
}

/// The ends of a range, in 8 bytes each, the lower one first.
#[tactic(auto, unfolding(crate::specs::Reading::ends_at))]
pub fn ends_at(bytes: &[u8]) -> Result<((u64, u64), &[u8]), Unread>
    ensures { Gives (λ x. (x.0, x.1.now)) result (reading.ends_at bytes.now) }
{
    let (low, rest) = identifier_at(bytes)?;
    let (high, rest) = identifier_at(rest)?;
    if low <= high {
        return Ok(((low, high), rest));
    }
    Err(Unread::OutsideGrammar)
}

#[tactic(auto, unfolding(crate::specs::Reading::bucket_at))]
fn bucket_at(bytes: &[u8]) -> Result<(Bucket, &[u8]), Unread>
    ensures { Gives (λ x. (x.0, x.1.now)) result (reading.bucket_at bytes.now) }
{
    let (number, rest) = byte_at(bytes)?;
    match Bucket::from_number(number) {
        Some(bucket) => Ok((bucket, rest)),
        None => Err(Unread::OutsideGrammar),
    }
}

/// A kind, by its number in one byte.
#[tactic(auto, unfolding(crate::specs::Reading::kind_at))]
pub fn kind_at(bytes: &[u8]) -> Result<(Kind, &[u8]), Unread>
    ensures { Gives (λ x. (x.0, x.1.now)) result (reading.kind_at bytes.now) }
{
    let (number, rest) = byte_at(bytes)?;
    match Kind::from_number(number) {
        Some(kind) => Ok((kind, rest)),
        None => Err(Unread::OutsideGrammar),
    }
}

#[tactic(auto, unfolding(crate::specs::Reading::subject_kind_at))]
fn subject_kind_at(bytes: &[u8]) -> Result<(Kind, &[u8]), Unread>
    ensures { Gives (λ x. (x.0, x.1.now)) result (reading.subject_kind_at bytes.now) }
{
    let (kind, rest) = kind_at(bytes)?;
    match kind {
        Kind::Organization | Kind::Group | Kind::Project | Kind::User => Ok((kind, rest)),
        Kind::Key | Kind::Address | Kind::Domain => Err(Unread::OutsideGrammar),
    }
}

/// How a lease ended, by its number in one byte.
#[tactic(auto, unfolding(crate::specs::Reading::how_at))]
pub fn how_at(bytes: &[u8]) -> Result<(How, &[u8]), Unread>
    ensures { Gives (λ x. (x.0, x.1.now)) result (reading.how_at bytes.now) }
{
    let (number, rest) = byte_at(bytes)?;
    match number {
        COMMITTED => Ok((How::Committed, rest)),
        ROLLED_BACK => Ok((How::RolledBack, rest)),
        _ => Err(Unread::OutsideGrammar),
    }
}

// The lease that sixteen bytes name.
fn lease_of(bytes: &[u8]) -> Option<LeaseId>
    requires { length bytes.now ≡ 16 }
    ensures { result ≡ lease_in bytes.now }
{
    match Uuid::from_slice(bytes) {
        Ok(id) => LeaseId::from_uuid(id),
        Err(_) => None,
    }
}

/// A lease, in 16 bytes.
#[tactic(auto, unfolding(crate::specs::Reading::bytes_at, crate::specs::Reading::lease_at))]
pub fn lease_at(bytes: &[u8]) -> Result<(LeaseId, &[u8]), Unread>
    ensures { Gives (λ x. (x.0, x.1.now)) result (reading.lease_at bytes.now) }
{
    if bytes.len() < LEASE_BYTES {
        return Err(Unread::OutsideGrammar);
    }
    let (front, rest) = bytes.split_at(LEASE_BYTES);
    match lease_of(front) {
        Some(lease) => Ok((lease, rest)),
        None => Err(Unread::OutsideGrammar),
    }
}

// The key that a bucket reads from a value, if reading leaves the value as it is.
#[tactic(auto, unfolding(crate::specs::Reading::key_from))]
fn key_from(alloc: Global, bucket: Bucket, value: &[u8]) -> Result<ClaimKey, Unread>
    ensures { Gives (λ key. key) result (reading.key_from (bucket, value.now)) }
{
    match ClaimKey::read(alloc, bucket, value) {
        Ok(key) => {
            if key.value.as_slice() == value {
                return Ok(key);
            }
            Err(Unread::OutsideGrammar)
        }
        Err(KeyFault::Memory) => Err(Unread::Memory),
        Err(_) => Err(Unread::OutsideGrammar),
    }
}

/// A key: its bucket's number, the length of its value, and the value.
#[tactic(auto, unfolding(crate::specs::Reading::key_at))]
pub fn key_at(alloc: Global, bytes: &[u8]) -> Result<(ClaimKey, &[u8]), Unread>
    ensures { Gives (λ x. (x.0, x.1.now)) result (reading.key_at bytes.now) }
{
    let (bucket, rest) = bucket_at(bytes)?;
    let (value, rest) = text_at(rest)?;
    Ok((key_from(alloc, bucket, value)?, rest))
}

/// A subject: its kind and its identifier.
#[tactic(auto, unfolding(crate::specs::Reading::subject_at))]
pub fn subject_at(bytes: &[u8]) -> Result<(Subject, &[u8]), Unread>
    ensures { Gives (λ x. (x.0, x.1.now)) result (reading.subject_at bytes.now) }
{
    let (kind, rest) = subject_kind_at(bytes)?;
    let (id, rest) = identifier_at(rest)?;
    Ok((Subject { kind, id }, rest))
}

/// An origin: its table and its row.
#[tactic(auto, unfolding(crate::specs::Reading::origin_at))]
pub fn origin_at(bytes: &[u8]) -> Result<(Origin, &[u8]), Unread>
    ensures { Gives (λ x. (x.0, x.1.now)) result (reading.origin_at bytes.now) }
{
    let (table, rest) = kind_at(bytes)?;
    let (row, rest) = identifier_at(rest)?;
    Ok((Origin { table, row }, rest))
}

/// A name: its length, from 1, and its bytes.
#[tactic(auto, unfolding(crate::specs::Reading::name_at))]
pub fn name_at(alloc: Global, bytes: &[u8]) -> Result<(Text, &[u8]), Unread>
    ensures { Gives (λ x. (x.0, x.1.now)) result (reading.name_at bytes.now) }
{
    let (name, rest) = text_at(bytes)?;
    if name.is_empty() {
        return Err(Unread::OutsideGrammar);
    }
    Ok((Text::from_slice(alloc, name)?, rest))
}

/// A range: its cell, its number and its ends.
#[tactic(auto, unfolding(crate::specs::Reading::range_at))]
pub fn range_at(bytes: &[u8]) -> Result<(Range, &[u8]), Unread>
    ensures { Gives (λ x. (x.0, x.1.now)) result (reading.range_at bytes.now) }
{
    let (cell, rest) = cell_at(bytes)?;
    let (number, rest) = range_number_at(rest)?;
    let ((low, high), rest) = ends_at(rest)?;
    Ok((
        Range {
            cell,
            number,
            low,
            high,
        },
        rest,
    ))
}
