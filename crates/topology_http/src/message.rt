//! A message at the front of bytes.
ghost use Rattle.std.specs.Prelude.{◌≡◌, ◌≤◌, ◌+◌, codes, IfOk, List, ℕ, Ok, Err, length, take, drop, slice_range, map};
ghost use Rattle.httparse.specs.Spans.{IsHeaderWithin, header_bytes};
ghost use Rattle.std.specs.List.{All};
ghost use Rattle.topology_http.specs.Heads.{start_of, fields_in, head_in};
ghost use Rattle.topology_http.specs.Within.{IsHeadWithin};
ghost use Rattle.topology_http.specs.Messages as spec;

use crate::HttpFault;
use crate::fields::{first_value, next_named};
use crate::head::{Found, Head, head_at};
use crate::limits::{HEAD_BYTES, HEAD_FIELDS};
use crate::number::number;
use cells_base::behind;
use claim_types::BODY;
use httparse::spans::{EMPTY_HEADER_SPAN, HeaderSpan};

/// Whose message is read.
#[derive(Clone, Copy, Debug, PartialEq, Eq)]
pub enum Side {
    /// That of whoever asks.
    Request,
    /// That of whoever answers.
    Response,
}

/// What a message begins with.
#[derive(Clone, Copy, Debug)]
pub enum First<'a> {
    /// A method, and the target that it is asked of, as they stand.
    Request { method: &'a [u8], target: &'a [u8] },
    /// A code of three digits.
    Response { status: u16 },
}

/// A message at the front of bytes, lent from them.
#[derive(Clone, Copy, Debug)]
pub struct Message<'a> {
    pub first: First<'a>,
    /// The value of the first Cookie field, without the spaces and tabs around it.
    pub cookie: Option<&'a [u8]>,
    /// At most [`claim_types::BODY`] bytes.
    pub body: &'a [u8],
    /// The message's length in bytes, head and body. What follows is no part of it.
    pub used: u64,
}

// As much of the bytes as may be a head.
fn front_of(bytes: &[u8]) -> &[u8]
    ensures { result.now ≡ take HEAD_BYTES bytes.now }
{
    if bytes.len() <= HEAD_BYTES {
        return bytes;
    }
    &bytes[..HEAD_BYTES]
}

fn told(n: Option<u64>) -> Result<Option<u64>, HttpFault>
    ensures { result ≡ spec.told n }
{
    match n {
        Some(n) => Ok(Some(n)),
        None => Err(HttpFault::BadHead),
    }
}

// The length that the fields tell.
fn length_told(bytes: &[u8], fields: &[HeaderSpan]) -> Result<Option<u64>, HttpFault>
    requires { All (IsHeaderWithin (length bytes.now)) fields.now }
    ensures { result ≡ spec.length_told (spec.values (codes "content-length") (fields_in bytes.now fields.now)) }
{
    match next_named(bytes, fields, b"content-length") {
        None => Ok(None),
        Some(at) => match next_named(bytes, behind(fields, at + 1), b"content-length") {
            Some(_) => Err(HttpFault::BadHead),
            None => told(number(fields[at].value.of(bytes))),
        },
    }
}

fn tells_length(first: &First<'_>) -> bool
    ensures { result ≡ spec.tells_length (start_of first.now) }
{
    match first {
        First::Request { method, .. } => *method == b"POST".as_slice(),
        First::Response { .. } => true,
    }
}

fn body_length(first: &First<'_>, told: Option<u64>) -> Result<u64, HttpFault>
    ensures value { result ≡ spec.body_length (start_of first.now) told }
    ensures bound { IfOk result (λ n. n ≤ BODY) }
{
    match told {
        None => {
            if tells_length(first) {
                return Err(HttpFault::NoLength);
            }
            Ok(0)
        }
        Some(n) => {
            if n > BODY {
                return Err(HttpFault::TooLarge { n });
            }
            Ok(n)
        }
    }
}

// How long the body behind a head is.
#[tactic(auto, unfolding(crate::specs::Messages::length_of_body))]
fn length_behind(bytes: &[u8], first: &First<'_>, fields: &[HeaderSpan]) -> Result<u64, HttpFault>
    requires { All (IsHeaderWithin (length bytes.now)) fields.now }
    ensures value { result ≡ spec.length_of_body (start_of first.now) (fields_in bytes.now fields.now) }
    ensures bound { IfOk result (λ n. n ≤ BODY) }
{
    let told = length_told(bytes, fields)?;
    if first_value(bytes, fields, b"transfer-encoding").is_some() {
        return Err(HttpFault::Chunked);
    }
    body_length(first, told)
}

// The message of a head in the first of these bytes.
#[tactic(auto, unfolding(crate::specs::Messages::message_with))]
fn message_behind<'a>(
    bytes: &'a [u8],
    front: &'a [u8],
    head: &Head<'a>,
    headers: &[HeaderSpan],
) -> Result<Message<'a>, HttpFault>
    requires front { length front.now ≤ length bytes.now }
    requires small { length front.now ≤ HEAD_BYTES }
    requires within { IsHeadWithin front.now headers.now head.now }
    ensures { spec.shown result ≡ spec.message_behind (head_in front.now headers.now head.now) bytes.now }
{
    let fields = &headers[..head.fields];
    let n = length_behind(front, &head.first, fields)?;
    let used = head.size as u64 + n;
    if (bytes.len() as u64) < used {
        return Err(HttpFault::Partial);
    }
    Ok(Message {
        first: head.first,
        cookie: first_value(front, fields, b"cookie"),
        body: &bytes[head.size..used as usize],
        used,
    })
}

/// The message at the front of these bytes, or the first reason why there is none, in the order of
/// `specs/Messages`: the head is not whole or is none, the body comes in pieces of its own, its length is
/// not told or too large, or bytes of it are missing. It takes no memory.
pub fn read_message<'a>(bytes: &'a [u8], side: Side) -> Result<Message<'a>, HttpFault>
    ensures { spec.IsReadAs side bytes.now (spec.shown result) }
{
    let mut headers = [EMPTY_HEADER_SPAN; HEAD_FIELDS];
    let front = front_of(bytes);
    match head_at(front, side, &mut headers) {
        Found::Whole { head } => message_behind(bytes, front, &head, &headers),
        Found::Unfinished => {
            if bytes.len() <= HEAD_BYTES {
                return Err(HttpFault::Partial);
            }
            Err(HttpFault::BadHead)
        }
        Found::Refused => Err(HttpFault::BadHead),
    }
}
