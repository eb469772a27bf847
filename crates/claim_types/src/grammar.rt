//! The walk over a key's text, byte by byte.
ghost use Rattle.std.specs.Prelude.{◌≡◌, ◌+◌, ◌≤◌, not, IfOk, map, take, position, length, if◌then◌else◌, nat_eq, codes, ◌||◌};
ghost use Rattle.std.specs.Char.{to_ascii_lowercase};
ghost use Rattle.std.specs.List.{list_all, slice_split, before_first, count_by, starts_with, ends_with};
ghost use Rattle.claim_types.specs.Keys as spec;
ghost use Rattle.claim_types.specs.declared.limits.TheConstants.{KEY_BYTES, ROUTE_SEGMENTS, MOST_LABELS};

use crate::{
    Bucket, FEWEST_LABELS, FINGERPRINT_DIGITS, LABEL_BYTES, MOST_LABELS, NoMemory, ROUTE_SEGMENTS,
    SEGMENT_BYTES, Text,
};
use std::alloc::Global;

/// A text in small letters, where capitals are those of ASCII. Its one error is want of memory.
pub fn lowered(alloc: Global, text: &[u8]) -> Result<Text, NoMemory>
    ensures { IfOk result (λ v. v ≡ map to_ascii_lowercase text.now) }
{
    let bytes = text.iter().map(|b| b.to_ascii_lowercase()).collect(alloc)?;
    Ok(Text::from_vec(bytes))
}

fn is_plain(b: u8) -> bool
    ensures { result ≡ spec.is_plain b }
{
    b.is_ascii_digit() || b.is_ascii_lowercase()
}

fn is_segment_byte(b: u8) -> bool
    ensures { result ≡ spec.is_segment_byte b }
{
    is_plain(b) || b == b'_' || b == b'.' || b == b'-'
}

fn is_address_byte(b: u8) -> bool
    ensures { result ≡ spec.is_in_alphabet Bucket.Address b }
{
    b.is_ascii_graphic() && !(b == b'"' || b == b'\\')
}

fn is_in_alphabet(bucket: Bucket, b: u8) -> bool
    ensures { result ≡ spec.is_in_alphabet bucket b }
{
    match bucket {
        Bucket::OrganizationPath => is_segment_byte(b),
        Bucket::Route => is_segment_byte(b) || b == b'/',
        Bucket::Address => is_address_byte(b),
        Bucket::SshKey => b.is_ascii_digit() || matches!(b, b'a'..=b'f'),
        Bucket::PagesDomain => is_plain(b) || b == b'-' || b == b'.',
    }
}

/// The place of the first byte outside the bucket's alphabet.
pub fn bad_byte(bucket: Bucket, value: &[u8]) -> Option<usize>
    ensures { result ≡ position (λ b. not (spec.is_in_alphabet bucket b)) value.now }
{
    value.iter().position(|b| !is_in_alphabet(bucket, *b))
}

fn begins_well(segment: &[u8]) -> bool
    ensures { result ≡ spec.begins_well segment.now }
{
    match segment.first() {
        Some(b) => is_plain(*b) || *b == b'_',
        None => false,
    }
}

fn ends_badly(segment: &[u8]) -> bool
    ensures { result ≡ spec.ends_badly segment.now }
{
    segment.ends_with(b".") || segment.ends_with(b".git") || segment.ends_with(b".atom")
}

fn has_segment_bytes(segment: &[u8]) -> bool
    ensures { result ≡ list_all spec.is_segment_byte segment.now }
{
    segment.iter().all(|b| is_segment_byte(*b))
}

fn is_segment(segment: &[u8]) -> bool
    ensures { result ≡ spec.is_segment segment.now }
{
    if segment.len() as u64 > SEGMENT_BYTES {
        return false;
    }
    if !has_segment_bytes(segment) {
        return false;
    }
    if !begins_well(segment) {
        return false;
    }
    !ends_badly(segment)
}

fn bad_segment(value: &[u8]) -> Option<usize>
    ensures { result ≡ position (λ part. not (spec.is_segment part)) (take ROUTE_SEGMENTS
        (slice_split spec.is_slash value.now)) }
{
    value
        .split(|b| *b == b'/')
        .take(ROUTE_SEGMENTS as usize)
        .position(|part| !is_segment(part))
}

fn has_label_bytes(label: &[u8]) -> bool
    ensures { result ≡ list_all spec.is_label_byte label.now }
{
    label.iter().all(|b| is_plain(*b) || *b == b'-')
}

fn is_label(label: &[u8]) -> bool
    ensures { result ≡ spec.is_label label.now }
{
    if label.is_empty() {
        return false;
    }
    if label.len() as u64 > LABEL_BYTES {
        return false;
    }
    if !has_label_bytes(label) {
        return false;
    }
    if label.starts_with(b"-") {
        return false;
    }
    !label.ends_with(b"-")
}

fn bad_label(value: &[u8]) -> Option<usize>
    ensures { result ≡ position (λ part. not (spec.is_label part)) (take MOST_LABELS
        (slice_split spec.is_dot value.now)) }
{
    value
        .split(|b| *b == b'.')
        .take(MOST_LABELS as usize)
        .position(|part| !is_label(part))
}

fn slash_count(value: &[u8]) -> usize
    ensures { result ≡ count_by spec.is_slash value.now }
{
    value.iter().filter(|b| **b == b'/').count()
}

fn segment_count(value: &[u8]) -> usize
    requires { length value.now ≤ KEY_BYTES }
    ensures { result ≡ length (slice_split spec.is_slash value.now) }
{
    slash_count(value) + 1
}

fn dot_count(value: &[u8]) -> usize
    ensures { result ≡ count_by spec.is_dot value.now }
{
    value.iter().filter(|b| **b == b'.').count()
}

fn label_count(value: &[u8]) -> usize
    requires { length value.now ≤ KEY_BYTES }
    ensures { result ≡ length (slice_split spec.is_dot value.now) }
{
    dot_count(value) + 1
}

fn bad_route_part(value: &[u8]) -> Option<u64>
    requires { length value.now ≤ KEY_BYTES }
    ensures { result ≡ spec.first_bad Bucket.Route (slice_split spec.is_slash value.now) }
{
    if let Some(index) = bad_segment(value) {
        return Some(index as u64);
    }
    if segment_count(value) as u64 > ROUTE_SEGMENTS {
        return Some(ROUTE_SEGMENTS);
    }
    None
}

fn bad_domain_part(value: &[u8]) -> Option<u64>
    requires { length value.now ≤ KEY_BYTES }
    ensures { result ≡ spec.first_bad Bucket.PagesDomain (slice_split spec.is_dot value.now) }
{
    if let Some(index) = bad_label(value) {
        return Some(index as u64);
    }
    let count = label_count(value) as u64;
    if count > MOST_LABELS {
        return Some(MOST_LABELS);
    }
    if count < FEWEST_LABELS {
        return Some(count);
    }
    None
}

fn unless(good: bool) -> Option<u64>
    ensures { result ≡ (if good then None else Some 0) }
{
    if good { None } else { Some(0) }
}

/// The index of the first part that is not what it has to be, or where the number is wrong.
pub fn bad_part(bucket: Bucket, value: &[u8]) -> Option<u64>
    requires { length value.now ≤ KEY_BYTES }
    ensures { result ≡ spec.first_bad bucket (spec.parts_of bucket value.now) }
{
    match bucket {
        Bucket::OrganizationPath => unless(is_segment(value)),
        Bucket::Route => bad_route_part(value),
        Bucket::Address => None,
        Bucket::SshKey => unless(value.len() as u64 == FINGERPRINT_DIGITS),
        Bucket::PagesDomain => bad_domain_part(value),
    }
}

fn is_reserved_word(word: &[u8]) -> bool
    ensures { result ≡ spec.is_reserved_word word.now }
{
    word == b"admin".as_slice()
        || word == b"api".as_slice()
        || word == b"assets".as_slice()
        || word == b"dashboard".as_slice()
        || word == b"explore".as_slice()
        || word == b"files".as_slice()
        || word == b"help".as_slice()
        || word == b"import".as_slice()
        || word == b"oauth".as_slice()
        || word == b"profile".as_slice()
        || word == b"search".as_slice()
        || word == b"uploads".as_slice()
}

fn slash_at(value: &[u8]) -> Option<usize>
    ensures { result ≡ position spec.is_slash value.now }
{
    value.iter().position(|b| *b == b'/')
}

fn first_segment(value: &[u8]) -> &[u8]
    ensures { result.now ≡ before_first spec.is_slash value.now }
{
    match slash_at(value) {
        Some(at) => &value[..at],
        None => value,
    }
}

/// Whether the value begins with a word that is kept for the installation itself.
pub fn is_reserved(bucket: Bucket, value: &[u8]) -> bool
    ensures { result ≡ spec.is_reserved bucket value.now }
{
    match bucket {
        Bucket::OrganizationPath => is_reserved_word(value),
        Bucket::Route => is_reserved_word(first_segment(value)),
        Bucket::Address | Bucket::SshKey | Bucket::PagesDomain => false,
    }
}
