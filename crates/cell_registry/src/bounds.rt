//! What the values of a cell may be.
ghost use Rattle.std.specs.Prelude.{◌≡◌, length};
ghost use Rattle.std.specs.List.{list_all};
ghost use Rattle.cell_registry.specs.Bounds as spec;

use crate::PREFIX_BYTES;

/// Whether a number is from `low` to `high`.
pub fn is_within(low: u64, high: u64, n: u64) -> bool
    ensures { result ≡ spec.is_within low high n }
{
    low <= n && n <= high
}

// A small letter, a digit, `-` or `_`.
fn is_prefix_byte(byte: u8) -> bool
    ensures { result ≡ spec.is_prefix_byte byte }
{
    matches!(byte, b'a'..=b'z' | b'0'..=b'9' | b'-' | b'_')
}

fn are_prefix_bytes(text: &[u8]) -> bool
    ensures { result ≡ list_all spec.is_prefix_byte text.now }
{
    text.iter().all(|byte| is_prefix_byte(*byte))
}

/// Whether a cell may have this prefix.
pub fn is_prefix(text: &[u8]) -> bool
    ensures { result ≡ spec.is_prefix text.now }
{
    is_within(1, PREFIX_BYTES, text.len() as u64) && are_prefix_bytes(text)
}
