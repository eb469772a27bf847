use super::*;
use cells_base::{NoMemory, Text};
use message_json::{BodyFault, Member, read_reply, read_request};
use std::alloc::Global;
use std::process::Abort;
use std::test::Fail;

// The begin of organization path `acme`, of 192 bytes, and its reply, of 78.
const BEGIN: &str =
    r#"{"ask":"begin","creates":[{"bucket":"organization_path","row":1,"subject":"organization","subject_id":1,"table":1,"value":"acme"}],"destroys":[],"lease":"00010000-0001-8000-8000-000000000001"}"#;

const BEGUN: &str =
    r#"{"lease":"00010000-0001-8000-8000-000000000001","reply":"begun","result":"ok"}"#;

const COMMIT: &str = r#"{"ask":"commit","lease":"00010000-0001-8000-8000-000000000001"}"#;

// What curl 7.88.1 sends for `curl -H 'Content-Type: application/json' -d COMMIT` to a server on port 18391.
const CURL: &str =
    "POST /v1/leases/commit HTTP/1.1\r\nHost: 127.0.0.1:18391\r\nUser-Agent: curl/7.88.1\r\nAccept: */*\r\nContent-Type: application/json\r\nContent-Length: 63\r\n\r\n{\"ask\":\"commit\",\"lease\":\"00010000-0001-8000-8000-000000000001\"}";

// What a browser sends for a page.
const BROWSER: &str =
    "GET /acme/app HTTP/1.1\r\nHost: cells.example\r\nUser-Agent: Mozilla/5.0 (X11; Linux x86_64; rv:128.0) Gecko/20100101 Firefox/128.0\r\nAccept: text/html,application/xhtml+xml,application/xml;q=0.9,*/*;q=0.8\r\nAccept-Language: en-US,en;q=0.5\r\nAccept-Encoding: gzip, deflate, br\r\nConnection: keep-alive\r\nCookie: _session=cell-2-abc; theme=dark\r\nUpgrade-Insecure-Requests: 1\r\n\r\n";

fn fault_of(bytes: &str, side: Side) -> Option<HttpFault> {
    match read_message(bytes.as_bytes(), side) {
        Ok(_) => None,
        Err(fault) => Some(fault),
    }
}

fn finds<R: AllocGlobal + Abort>(rt: &R, side: Side, rows: &[(&str, Option<HttpFault>)]) {
    for (bytes, fault) in rows {
        assert_eq!(rt; fault_of(bytes, side), *fault, "{bytes}");
    }
}

// A request with a cookie, and without a body.
fn shows(bytes: &str, method: &str, target: &str, cookie: &str) -> bool {
    match read_message(bytes.as_bytes(), Side::Request) {
        Ok(message) => match message.first {
            First::Request {
                method: read,
                target: asked,
            } => {
                read == method.as_bytes()
                    && asked == target.as_bytes()
                    && message.cookie == Some(cookie.as_bytes())
                    && message.body.is_empty()
                    && message.used == bytes.len() as u64
            }
            First::Response { .. } => false,
        },
        Err(_) => false,
    }
}

// The refusals of requests, in their order, and requests that are read.
const REQUESTS: [(&str, Option<HttpFault>); 17] = [
    ("", Some(HttpFault::Partial)),
    (
        "POST /v1/claims HTTP/1.1\r\nHost: service\r\n",
        Some(HttpFault::Partial),
    ),
    ("POST /v1/claims\r\n\r\n", Some(HttpFault::BadHead)),
    (
        "POST / HTTP/1.1\r\nContent-Length: 2\r\ncontent-length: 2\r\n\r\n{}",
        Some(HttpFault::BadHead),
    ),
    (
        "POST / HTTP/1.1\r\nContent-Length: +2\r\n\r\n{}",
        Some(HttpFault::BadHead),
    ),
    (
        "POST / HTTP/1.1\r\nContent-Length: 00000000000000000002\r\n\r\n{}",
        Some(HttpFault::BadHead),
    ),
    (
        "POST / HTTP/1.1\r\nContent-Length: x\r\nTransfer-Encoding: chunked\r\n\r\n",
        Some(HttpFault::BadHead),
    ),
    (
        "POST / HTTP/1.1\r\ntransfer-encoding: chunked\r\n\r\n",
        Some(HttpFault::Chunked),
    ),
    (
        "POST / HTTP/1.1\r\nHost: service\r\n\r\n",
        Some(HttpFault::NoLength),
    ),
    ("GET / HTTP/1.1\r\nHost: service\r\n\r\n", None),
    (
        "POST / HTTP/1.1\r\nContent-Length: 32769\r\n\r\n",
        Some(HttpFault::TooLarge { n: 32_769 }),
    ),
    (
        "POST / HTTP/1.1\r\nContent-Length: 9999999999999999999\r\n\r\n",
        Some(HttpFault::TooLarge {
            n: 9_999_999_999_999_999_999,
        }),
    ),
    (
        "POST / HTTP/1.1\r\nContent-Length: 32768\r\n\r\n",
        Some(HttpFault::Partial),
    ),
    (
        "POST / HTTP/1.1\r\nContent-Length: 3\r\n\r\n{}",
        Some(HttpFault::Partial),
    ),
    (
        "POST / HTTP/1.1\r\nContent-Length: 0000000000000000002\r\n\r\n{}",
        None,
    ),
    (CURL, None),
    (BROWSER, None),
];

const RESPONSES: [(&str, Option<HttpFault>); 3] = [
    ("HTTP/1.1 200 OK\r\n\r\n", Some(HttpFault::NoLength)),
    ("HTTP/1.1 200 OK\r\nContent-Length: 0\r\n\r\n", None),
    ("HTTP/1.1 2000 OK\r\n", Some(HttpFault::BadHead)),
];

#[test]
fn each_refusal_is_found_in_its_order(rt: HostRuntime) -> Result<(), Fail> {
    finds(&rt, Side::Request, &REQUESTS);
    finds(&rt, Side::Response, &RESPONSES);
    Ok(())
}

#[test]
fn the_first_cookie_is_read(rt: HostRuntime) -> Result<(), Fail> {
    let cookie = "_session=cell-2-abc; theme=dark";
    assert!(rt; shows(BROWSER, "GET", "/acme/app", cookie));
    let two = "GET / HTTP/1.1\r\ncookie: a\r\nCookie: b\r\n\r\n";
    assert!(rt; shows(two, "GET", "/", "a"));
    Ok(())
}

#[test]
fn a_head_has_its_greatest_length(rt: HostRuntime) -> Result<(), Fail> {
    let path = "a".repeat(rt.alloc(), 16_366)?;
    let longest = format!(in rt.alloc(); "GET /{path} HTTP/1.1\r\n\r\n")?;
    assert_eq!(rt; fault_of(longest.as_str(), Side::Request), None);
    let longer = format!(in rt.alloc(); "GET /a{path} HTTP/1.1\r\n\r\n")?;
    let refused = fault_of(longer.as_str(), Side::Request);
    assert_eq!(rt; refused, Some(HttpFault::BadHead));
    Ok(())
}

fn asked(alloc: Global, body: &str) -> Result<Option<Text>, NoMemory> {
    match read_request(alloc, body.as_bytes()) {
        Ok(request) => Ok(Some(message_of(alloc, &request)?)),
        Err(_) => Ok(None),
    }
}

fn answered(alloc: Global, body: &str) -> Result<Option<Text>, NoMemory> {
    match read_reply(alloc, body.as_bytes()) {
        Ok(reply) => Ok(Some(message_of_reply(alloc, &reply)?)),
        Err(_) => Ok(None),
    }
}

fn is_text(text: &Option<Text>, head: &str, body: &str) -> bool {
    match text {
        Some(text) => {
            text.len() == head.len() + body.len()
                && text.as_slice().starts_with(head.as_bytes())
                && text.as_slice().ends_with(body.as_bytes())
        }
        None => false,
    }
}

#[test]
fn messages_have_their_heads(rt: HostRuntime) -> Result<(), Fail> {
    assert_eq!(rt; BEGIN.len(), 192);
    assert_eq!(rt; BEGUN.len(), 78);
    let begin =
        "POST /v1/leases/begin HTTP/1.1\r\nHost: service\r\nContent-Type: application/json\r\nContent-Length: 192\r\nConnection: close\r\n\r\n";
    assert!(rt; is_text(&asked(rt.alloc(), BEGIN)?, begin, BEGIN));
    let page = r#"{"ask":"page","cell":7,"named":true,"path":"acme/x"}"#;
    let to_cell =
        "POST /v1/pages HTTP/1.1\r\nHost: cell-7\r\nContent-Type: application/json\r\nContent-Length: 52\r\nConnection: close\r\n\r\n";
    assert!(rt; is_text(&asked(rt.alloc(), page)?, to_cell, page));
    let good =
        "HTTP/1.1 200 OK\r\nContent-Type: application/json\r\nContent-Length: 78\r\nConnection: close\r\n\r\n";
    assert!(rt; is_text(&answered(rt.alloc(), BEGUN)?, good, BEGUN));
    let absent = r#"{"cell":7,"reply":"no_cell"}"#;
    let missing =
        "HTTP/1.1 404 Not Found\r\nContent-Type: application/json\r\nContent-Length: 28\r\nConnection: close\r\n\r\n";
    assert!(rt; is_text(&answered(rt.alloc(), absent)?, missing, absent));
    let chunked = message_of_fault(rt.alloc(), HttpFault::Chunked)?;
    let not_served =
        "HTTP/1.1 501 Not Implemented\r\nContent-Type: application/json\r\nContent-Length: 19\r\nConnection: close\r\n\r\n";
    assert!(rt; is_text(&Some(chunked), not_served, r#"{"fault":"chunked"}"#));
    let absent = BodyFault::Missing { name: Member::Ask };
    let bad =
        "HTTP/1.1 400 Bad Request\r\nContent-Type: application/json\r\nContent-Length: 34\r\nConnection: close\r\n\r\n";
    let fault = message_of_body_fault(rt.alloc(), absent)?;
    assert!(rt; is_text(&Some(fault), bad, r#"{"fault":"missing","member":"ask"}"#));
    Ok(())
}

#[test]
fn pieces_become_a_message_of_its_path(rt: HostRuntime) -> Result<(), Fail> {
    let (front, end) = CURL.split_at(40);
    let mut gather = Gather::new(rt.alloc(), Side::Request);
    assert_eq!(rt; gather.feed(front.as_bytes()), Ok(Progress::More));
    assert_eq!(rt;
        gather.feed(end.as_bytes()),
        Ok(Progress::Whole { used: 211 })
    );
    assert_eq!(rt; gather.feed(b"GET"), Ok(Progress::Whole { used: 211 }));
    assert_eq!(rt; gather.bytes().len(), 214);
    let mut refused = Gather::new(rt.alloc(), Side::Request);
    assert_eq!(rt;
        refused.feed(b"POST / HTTP/1.1\r\n\r\n"),
        Err(HttpFault::NoLength)
    );
    assert_eq!(rt; refused.feed(b"{}"), Err(HttpFault::NoLength));
    assert_eq!(rt; refused.bytes().len(), 19);
    let routes = Routes::new(rt.alloc())?;
    assert_eq!(rt;
        routes.dispatch(b"POST", b"/v1/leases/commit"),
        Ok(Ask::Commit)
    );
    assert_eq!(rt;
        routes.dispatch(b"POST", Ask::Line.path().as_bytes()),
        Ok(Ask::Line)
    );
    assert_eq!(rt;
        routes.dispatch(b"GET", b"/v1/leases/commit"),
        Err(HttpFault::NoSuchPath)
    );
    assert_eq!(rt;
        routes.dispatch(b"POST", b"/v1/leases/commit/"),
        Err(HttpFault::NoSuchPath)
    );
    Ok(())
}
