ghost use Rattle.std.specs.Prelude.{◌≡◌, ◌≤◌, ◌<◌, ◌+◌, length, drop, get_or, map, [], ◌∷◌, MatchOption, option_map};
ghost use Rattle.std.specs.List.{All};
ghost use Rattle.httparse.specs.Spans.{IsHeaderWithin, header_bytes, span_bytes};
ghost use Rattle.topology_http.specs.Messages.{has_name, values, first_of};
ghost use Rattle.topology_http.specs.Fields.{IsNext};

use httparse::spans::HeaderSpan;

fn is_named(bytes: &[u8], field: HeaderSpan, name: &[u8]) -> bool
    requires { IsHeaderWithin (length bytes.now) field }
    ensures { result ≡ has_name name.now (header_bytes bytes.now field) }
{
    field.name.of(bytes).eq_ignore_ascii_case(name)
}

// The place of the first field with this name.
pub fn next_named(bytes: &[u8], fields: &[HeaderSpan], name: &[u8]) -> Option<usize>
    requires { All (IsHeaderWithin (length bytes.now)) fields.now }
    ensures { IsNext name.now (map (header_bytes bytes.now) fields.now) result }
{
    for at in 0..fields.len() {
        if is_named(bytes, fields[at], name) {
            return Some(at);
        }
    }
    None
}

// The value of the first field with this name.
pub fn first_value<'a>(bytes: &'a [u8], fields: &[HeaderSpan], name: &[u8]) -> Option<&'a [u8]>
    requires { All (IsHeaderWithin (length bytes.now)) fields.now }
    ensures { option_map (λ v. v.now) result ≡ first_of (values name.now (map (header_bytes bytes.now) fields.now)) }
{
    match next_named(bytes, fields, name) {
        Some(at) => Some(fields[at].value.of(bytes)),
        None => None,
    }
}
