//! The messages of faults.
ghost use Rattle.std.specs.Prelude.{◌≡◌, IfOk};
ghost use Rattle.topology_http.specs.Faults as spec;

use crate::HttpFault;
use crate::writer::reply_message;
use cells_base::{NoMemory, Text};
use http::StatusCode;
use message_json::{BodyFault, write_fault};
use std::alloc::Global;

fn code_of(fault: HttpFault) -> StatusCode
    ensures { result ≡ spec.code_of fault }
{
    match fault {
        HttpFault::Partial => StatusCode::BAD_REQUEST,
        HttpFault::BadHead => StatusCode::BAD_REQUEST,
        HttpFault::Chunked => StatusCode::NOT_IMPLEMENTED,
        HttpFault::NoLength => StatusCode::BAD_REQUEST,
        HttpFault::TooLarge { .. } => StatusCode::PAYLOAD_TOO_LARGE,
        HttpFault::NoSuchPath => StatusCode::NOT_FOUND,
        HttpFault::Memory => StatusCode::SERVICE_UNAVAILABLE,
    }
}

fn body_of(fault: HttpFault) -> &'static str
    ensures { result.now ≡ spec.body_of fault }
{
    match fault {
        HttpFault::Partial => r#"{"fault":"partial"}"#,
        HttpFault::BadHead => r#"{"fault":"bad head"}"#,
        HttpFault::Chunked => r#"{"fault":"chunked"}"#,
        HttpFault::NoLength => r#"{"fault":"no length"}"#,
        HttpFault::TooLarge { .. } => r#"{"fault":"too large"}"#,
        HttpFault::NoSuchPath => r#"{"fault":"no such path"}"#,
        HttpFault::Memory => r#"{"fault":"memory"}"#,
    }
}

/// The reply to a message that is none, or that asks for nothing that is served: the code and the body
/// that `specs/Faults` states.
pub fn message_of_fault(alloc: Global, fault: HttpFault) -> Result<Text, NoMemory>
    ensures { IfOk result (λ text. text ≡ spec.message_of fault) }
{
    reply_message(alloc, code_of(fault), body_of(fault).as_bytes())
}

fn code_of_body(fault: BodyFault) -> StatusCode
    ensures { result ≡ spec.code_of_body fault }
{
    match fault {
        BodyFault::NotJson => StatusCode::BAD_REQUEST,
        BodyFault::Missing { .. } => StatusCode::BAD_REQUEST,
        BodyFault::WrongKind { .. } => StatusCode::BAD_REQUEST,
        BodyFault::BadValue { .. } => StatusCode::BAD_REQUEST,
        BodyFault::Memory => StatusCode::SERVICE_UNAVAILABLE,
    }
}

/// The reply to a message whose body is none: the code that `specs/Faults` states, and the body that
/// `message_json` writes.
pub fn message_of_body_fault(alloc: Global, fault: BodyFault) -> Result<Text, NoMemory>
    ensures { IfOk result (λ text. text ≡ spec.message_of_body fault) }
{
    let body = write_fault(alloc, fault)?;
    reply_message(alloc, code_of_body(fault), body.as_slice())
}
