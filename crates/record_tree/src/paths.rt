//! The longest route that leads a path.
ghost use Rattle.std.specs.Prelude.{◌≡◌, ◌+◌, ◌<◌, ◌≤◌, ℕ, List, length, take, Some, None};
ghost use Rattle.std.specs.FinMap as map;
ghost use Rattle.claim_types.specs.declared.limits.TheConstants.{KEY_BYTES as MOST};
ghost use Rattle.record_tree.specs.Paths.{EndsSegment, IsLongest, route_key};

use claim_types::{Bucket, KEY_BYTES};
use key_table::KeyMap;

fn front(path: &[u8], end: usize) -> &[u8]
    requires { end ≤ length path.now }
    ensures { result.now ≡ take end path.now }
{
    &path[..end]
}

// The record of the front of this many bytes, where it ends a segment and is a route.
fn at_front(index: &KeyMap<u64>, path: &[u8], end: usize) -> Option<u64>
    requires { end ≤ length path.now }
    ensures some { (id : ℕ) → result ≡ Some id → EndsSegment path.now end ×
        (map.get index.now (route_key (take end path.now)) ≡ Some id) }
    ensures none { result ≡ None → EndsSegment path.now end → map.get index.now (route_key (take end path.now)) ≡ None }
{
    if end < path.len() {
        if path[end] != b'/' {
            return None;
        }
    }
    index.get(Bucket::Route, front(path, end))
}

/// The record of the longest route that is the path or is followed in it by a slash, where each
/// route is short enough for a key.
pub fn holder_of(index: &KeyMap<u64>, path: &[u8]) -> Option<u64>
    requires { (value : List ℕ) → MOST < length value → map.get index.now (route_key value) ≡ None }
    ensures { IsLongest (λ value. map.get index.now (route_key value)) path.now (length path.now + 1) result }
{
    let most = path.len().min(KEY_BYTES as usize);
    let mut found = None;
    for end in 0..most + 1 {
        let here = at_front(index, path, end);
        found = here.or(found);
    }
    found
}
