//! Values, leases and keys' values as texts.
ghost use Rattle.std.specs.Prelude.{◌≡◌, ◌≤◌, false, IfOk, IsUtf8, length, Some};
ghost use Rattle.serde_json.specs.Data.{depth};
ghost use Rattle.serde_json.specs.Read.{max_depth, read as read_text};
ghost use Rattle.serde_json.specs.View.{view};
ghost use Rattle.serde_json.specs.Written.{compact_text, has_float};
ghost use Rattle.claim_types.specs.Leases.{IsLease, lease_text};

use claim_types::{LeaseId, NoMemory, Text};
use serde_json::Value;
use std::alloc::Global;

// The text of a value, with no space, which is read again as the value.
pub fn compact(alloc: Global, value: &Value) -> Result<Text, NoMemory>
    ensures text { IfOk result (λ text. has_float (view value.now) ≡ false → text ≡ compact_text (view value.now)) }
    ensures utf8 { IfOk result IsUtf8 }
    ensures reads_back { IfOk result (λ text.
        depth (view value.now) ≤ max_depth → read_text text ≡ Some (view value.now)) }
{
    let text = value.to_string(alloc)?;
    Ok(Text::from_vec(text.into_bytes()))
}

// The text of a lease, at the start of the room.
pub fn lease_text(lease: LeaseId, room: &mut [u8]) -> &str
    requires bounds { IsLease lease }
    requires room { 36 ≤ length room.old }
    ensures { result.now ≡ lease_text lease }
{
    lease.to_uuid().hyphenated().encode_lower(room)
}

pub fn text_of(text: &Text) -> &str
    requires { IsUtf8 text.now }
    ensures { result.now ≡ text.now }
{
    match str::from_utf8(text.as_slice()) {
        Ok(text) => text,
        Err(_) => unreachable!(),
    }
}
