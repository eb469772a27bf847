//! The messages of requests.
ghost use Rattle.std.specs.Prelude.{◌≡◌, IfOk};
ghost use Rattle.std.specs.String.{string_bytes};
ghost use Rattle.claim_types.specs.Writable.{IsWritableRequest};
ghost use Rattle.topology_http.specs.Requests as spec;

use crate::Ask;
use crate::writer::request_message;
use cells_base::{NoMemory, Text};
use claim_types::Request;
use message_json::write_request;
use std::alloc::{AllocError, Global};

fn ask_of(request: &Request) -> Ask
    ensures { result ≡ spec.ask_of request.now }
{
    match request {
        Request::Begin { .. } => Ask::Begin,
        Request::Commit { .. } => Ask::Commit,
        Request::Rollback { .. } => Ask::Rollback,
        Request::List { .. } => Ask::List,
        Request::Range { .. } => Ask::Range,
        Request::Claims { .. } => Ask::Claims,
        Request::Classify { .. } => Ask::Classify,
        Request::Page { .. } => Ask::Page,
    }
}

fn host_of(alloc: Global, request: &Request) -> Result<String, AllocError>
    ensures { IfOk result (λ host. string_bytes host ≡ spec.host_of request.now) }
{
    match request {
        Request::Page { cell, .. } => format!(in alloc; "cell-{cell}"),
        _ => format!(in alloc; "service"),
    }
}

/// The message of a request: to the path of what it asks for, at the service, or at the cell whose page
/// it asks for. A request within its bounds, with a body of at most [`claim_types::BODY`] bytes, is read
/// from it again, whatever follows it.
pub fn message_of(alloc: Global, request: &Request) -> Result<Text, NoMemory>
    requires { IsWritableRequest request.now }
    ensures text { IfOk result (λ text. text ≡ spec.message_of request.now) }
    ensures reads_back { IfOk result (spec.ReadsBack request.now) }
{
    let body = write_request(alloc, request)?;
    let host = host_of(alloc, request)?;
    request_message(
        alloc,
        ask_of(request).path(),
        host.as_str(),
        body.as_slice(),
    )
}
