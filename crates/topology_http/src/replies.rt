//! The messages of replies.
ghost use Rattle.std.specs.Prelude.{◌≡◌, IfOk};
ghost use Rattle.claim_types.specs.Writable.{IsWritableReply};
ghost use Rattle.topology_http.specs.Replies as spec;

use crate::writer::reply_message;
use cells_base::{NoMemory, Text};
use claim_types::{BegunResult, Class, CommittedResult, RangedResult, Reply, RolledBackResult};
use http::StatusCode;
use message_json::write_reply;
use std::alloc::Global;

// What was asked for was done or found.
const GOOD: StatusCode = StatusCode::OK;

// What was asked for is not there.
const MISSING: StatusCode = StatusCode::NOT_FOUND;

// What was asked for is refused.
const REFUSED: StatusCode = StatusCode::CONFLICT;

// Another node has what was asked for.
const ELSEWHERE: StatusCode = StatusCode::MISDIRECTED_REQUEST;

fn begun_code(outcome: &BegunResult) -> StatusCode
    ensures { result ≡ spec.begun_code outcome.now }
{
    match outcome {
        BegunResult::Good => GOOD,
        BegunResult::Denied(_) => REFUSED,
    }
}

fn committed_code(outcome: CommittedResult) -> StatusCode
    ensures { result ≡ spec.committed_code outcome }
{
    match outcome {
        CommittedResult::Good => GOOD,
        CommittedResult::Unknown => MISSING,
        CommittedResult::WasRolledBack => REFUSED,
    }
}

fn rolled_back_code(outcome: RolledBackResult) -> StatusCode
    ensures { result ≡ spec.rolled_back_code outcome }
{
    match outcome {
        RolledBackResult::Good => GOOD,
        RolledBackResult::WasCommitted => REFUSED,
    }
}

fn ranged_code(outcome: RangedResult) -> StatusCode
    ensures { result ≡ spec.ranged_code outcome }
{
    match outcome {
        RangedResult::Good { .. } => GOOD,
        RangedResult::UnknownCell => MISSING,
        RangedResult::TooFar { .. } => REFUSED,
        RangedResult::Exhausted { .. } => REFUSED,
    }
}

fn class_code(class: Class) -> StatusCode
    ensures { result ≡ spec.class_code class }
{
    match class {
        Class::Cell { .. } => GOOD,
        Class::NotFound => MISSING,
        Class::UnknownCell => MISSING,
    }
}

fn found_code(found: Option<u64>) -> StatusCode
    ensures { result ≡ spec.found_code found }
{
    match found {
        None => ELSEWHERE,
        Some(_) => GOOD,
    }
}

fn code_of(reply: &Reply) -> StatusCode
    ensures { result ≡ spec.code_of reply.now }
{
    match reply {
        Reply::Begun { result, .. } => begun_code(result),
        Reply::Committed { result, .. } => committed_code(*result),
        Reply::RolledBack { result, .. } => rolled_back_code(*result),
        Reply::Leases { .. } => GOOD,
        Reply::Ranged { result, .. } => ranged_code(*result),
        Reply::Claims { .. } => GOOD,
        Reply::Classified { class, .. } => class_code(*class),
        Reply::Page { found, .. } => found_code(*found),
        Reply::NoCell { .. } => MISSING,
    }
}

/// The message of a reply: the code of its result, which `specs/Replies` states, with the phrase of its
/// standard, and the reply's body. A reply within its bounds, with a body of at most
/// [`claim_types::BODY`] bytes, is read from it again, whatever follows it.
pub fn message_of_reply(alloc: Global, reply: &Reply) -> Result<Text, NoMemory>
    requires { IsWritableReply reply.now }
    ensures text { IfOk result (λ text. text ≡ spec.message_of reply.now) }
    ensures reads_back { IfOk result (spec.ReadsBack reply.now) }
{
    let body = write_reply(alloc, reply)?;
    reply_message(alloc, code_of(reply), body.as_slice())
}
