use super::*;
use claim_types::NoMemory;
use std::alloc::{AllocError, Global};
use std::process::Abort;
use std::test::Fail;

// The begin of organization path `acme`, and its reply.
const BEGIN: &str =
    r#"{"ask":"begin","creates":[{"bucket":"organization_path","row":1,"subject":"organization","subject_id":1,"table":1,"value":"acme"}],"destroys":[],"lease":"00010000-0001-8000-8000-000000000001"}"#;

const BEGUN: &str =
    r#"{"lease":"00010000-0001-8000-8000-000000000001","reply":"begun","result":"ok"}"#;

// The start of a begin, up to its first create, and the start of one up to its first destroy.
const CREATES: &str =
    r#"{"ask":"begin","lease":"00010000-0001-8000-8000-000000000001","creates":["#;

const DESTROYS: &str =
    r#"{"ask":"begin","lease":"00010000-0001-8000-8000-000000000001","creates":[],"destroys":["#;

const fn missing(name: Member) -> BodyFault {
    BodyFault::Missing { name }
}

const fn wrong_kind(name: Member) -> BodyFault {
    BodyFault::WrongKind { name }
}

const fn bad_value(name: Member) -> BodyFault {
    BodyFault::BadValue { name }
}

fn request_fault(alloc: Global, body: &[u8]) -> Option<BodyFault> {
    match read_request(alloc, body) {
        Ok(_) => None,
        Err(fault) => Some(fault),
    }
}

fn reply_fault(alloc: Global, body: &[u8]) -> Option<BodyFault> {
    match read_reply(alloc, body) {
        Ok(_) => None,
        Err(fault) => Some(fault),
    }
}

fn finds_faults<R: AllocGlobal + Abort>(rt: &R, rows: &[(&str, BodyFault)]) {
    for (body, fault) in rows {
        assert_eq!(rt;
            request_fault(rt.alloc(), body.as_bytes()),
            Some(*fault),
            "{body}"
        );
    }
}

// The rows end with the elements of an array whose start is given.
fn finds_faults_within<R: AllocGlobal + Abort>(
    rt: &R,
    start: &str,
    rows: &[(&str, BodyFault)],
) -> Result<(), AllocError> {
    for (rest, fault) in rows {
        let body = format!(in rt.alloc(); "{start}{rest}]}}")?;
        assert_eq!(rt;
            request_fault(rt.alloc(), body.as_str().as_bytes()),
            Some(*fault),
            "{body}"
        );
    }
    Ok(())
}

fn finds_reply_faults<R: AllocGlobal + Abort>(rt: &R, rows: &[(&str, BodyFault)]) {
    for (body, fault) in rows {
        assert_eq!(rt;
            reply_fault(rt.alloc(), body.as_bytes()),
            Some(*fault),
            "{body}"
        );
    }
}

// Whether a body is read as a request that is written as the other body.
fn writes_request(alloc: Global, body: &str, again: &str) -> Result<bool, NoMemory> {
    match read_request(alloc, body.as_bytes()) {
        Ok(request) => Ok(write_request(alloc, &request)?.as_slice() == again.as_bytes()),
        Err(_) => Ok(false),
    }
}

fn writes_reply(alloc: Global, body: &str) -> Result<bool, NoMemory> {
    match read_reply(alloc, body.as_bytes()) {
        Ok(reply) => Ok(write_reply(alloc, &reply)?.as_slice() == body.as_bytes()),
        Err(_) => Ok(false),
    }
}

#[test]
fn each_request_is_read_and_written(rt: HostRuntime) -> Result<(), Fail> {
    let rows = [
        BEGIN,
        r#"{"ask":"begin","creates":[],"destroys":[{"bucket":"route","value":"acme/app"},{"bucket":"address","value":"a@b.example"}],"lease":"00100000-0102-8000-bfff-ffffffffffff"}"#,
        r#"{"ask":"commit","lease":"00010000-0001-8000-8000-000000000001"}"#,
        r#"{"ask":"rollback","lease":"00010000-0001-8000-8000-000000000001"}"#,
        r#"{"after":null,"ask":"list","cell":999}"#,
        r#"{"after":"00010000-0001-8000-8000-000000000001","ask":"list","cell":1}"#,
        r#"{"ask":"range","cell":1,"number":18446744073709551615}"#,
        r#"{"after":9223372036854775807,"ask":"claims","bucket":"ssh_key","cell":1,"first":0,"last":18446744073709551615}"#,
        r#"{"ask":"classify","by":"first"}"#,
        r#"{"ask":"classify","by":"cell","cell":999}"#,
        r#"{"ask":"classify","by":"session","text":"cell-2-abc"}"#,
        r#"{"ask":"classify","bucket":"route","by":"claim","value":"acme"}"#,
        r#"{"ask":"classify","by":"path","text":""}"#,
        r#"{"ask":"page","cell":1,"named":true,"path":"acme/x"}"#,
    ];
    assert_eq!(rt; BEGIN.len(), 192);
    for body in rows {
        assert!(rt; writes_request(rt.alloc(), body, body)?, "{body}");
    }
    Ok(())
}

#[test]
fn other_texts_of_a_request_are_read(rt: HostRuntime) -> Result<(), Fail> {
    let commit = r#"{"ask":"commit","lease":"00010000-0001-8000-8000-000000000001"}"#;
    let rows = [
        " {\"lease\":\"00010000-0001-8000-8000-000000000001\",\"ask\":\"commit\"}\r",
        r#"{"ask":"commit","lease":"urn:uuid:00010000-0001-8000-8000-000000000001"}"#,
        r#"{"ask":"commit","lease":"{00010000-0001-8000-8000-000000000001}","more":1}"#,
        r#"{"ask":"commit","lease":"00010000000180008000000000000001"}"#,
        r#"{"ask":"range","lease":"x","ask":"commit","lease":"00010000-0001-8000-8000-000000000001"}"#,
    ];
    for body in rows {
        assert!(rt; writes_request(rt.alloc(), body, commit)?, "{body}");
    }
    Ok(())
}

#[test]
fn each_reply_is_read_and_written(rt: HostRuntime) -> Result<(), Fail> {
    let rows = [
        BEGUN,
        r#"{"lease":"00010000-0001-8000-8000-000000000001","reply":"committed","result":"ok"}"#,
        r#"{"lease":"00010000-0001-8000-8000-000000000001","reply":"committed","result":"unknown"}"#,
        r#"{"lease":"00010000-0001-8000-8000-000000000001","reply":"committed","result":"was_rolled_back"}"#,
        r#"{"lease":"00010000-0001-8000-8000-000000000003","reply":"rolled_back","result":"ok"}"#,
        r#"{"lease":"00010000-0001-8000-8000-000000000003","reply":"rolled_back","result":"was_committed"}"#,
        r#"{"cell":1,"leases":["00010000-0001-8000-8000-000000000001","00010000-0001-8000-8000-000000000002"],"more":true,"reply":"leases"}"#,
        r#"{"cell":1,"leases":[],"more":false,"reply":"leases"}"#,
        r#"{"after":0,"bucket":"route","cell":1,"first":1,"items":[{"row":1,"subject":"group","subject_id":2,"table":2,"value":"acme"}],"last":9,"more":true,"reply":"claims"}"#,
        r#"{"answer":1,"by":"first","reply":"classified","result":"cell"}"#,
        r#"{"by":"cell","cell":9,"reply":"classified","result":"unknown_cell"}"#,
        r#"{"answer":2,"by":"session","reply":"classified","result":"cell","text":"cell-2-abc"}"#,
        r#"{"bucket":"route","by":"claim","reply":"classified","result":"not_found","value":"acme"}"#,
        r#"{"by":"path","reply":"classified","result":"not_found","text":"acmex"}"#,
        r#"{"cell":1,"found":null,"named":true,"path":"acme","reply":"page"}"#,
        r#"{"cell":1,"found":9223372036854775807,"named":true,"path":"acme","reply":"page"}"#,
        r#"{"cell":1,"found":0,"named":false,"path":"-/profile","reply":"page"}"#,
        r#"{"cell":4,"reply":"no_cell"}"#,
    ];
    assert_eq!(rt; BEGUN.len(), 78);
    for body in rows {
        assert!(rt; writes_reply(rt.alloc(), body)?, "{body}");
    }
    Ok(())
}

#[test]
fn each_result_is_read_and_written(rt: HostRuntime) -> Result<(), Fail> {
    let rows = [
        r#"{"how":"rolled_back","lease":"00010000-0001-8000-8000-000000000003","reply":"begun","result":"settled"}"#,
        r#"{"how":"committed","lease":"00010000-0001-8000-8000-000000000003","reply":"begun","result":"settled"}"#,
        r#"{"lease":"00010000-0001-8000-8000-000000000003","reply":"begun","result":"other_operations"}"#,
        r#"{"lease":"00010000-0001-8000-8000-000000000003","n":0,"reply":"begun","result":"count"}"#,
        r#"{"bucket":"route","lease":"00010000-0001-8000-8000-000000000002","reply":"begun","result":"twice","value":"acme"}"#,
        r#"{"id":1001,"lease":"00010000-0001-8000-8000-000000000002","reply":"begun","result":"foreign_id"}"#,
        r#"{"lease":"00010000-0001-8000-8000-000000000003","reply":"begun","result":"too_many_open"}"#,
        r#"{"bucket":"route","lease":"00010000-0001-8000-8000-000000000002","owner":1,"reply":"begun","result":"owned","value":"acme"}"#,
        r#"{"bucket":"route","by":"00010000-0001-8000-8000-000000000001","lease":"00010000-0001-8000-8000-000000000002","reply":"begun","result":"leased","value":"acme"}"#,
        r#"{"bucket":"pages_domain","lease":"00010000-0001-8000-8000-000000000002","reply":"begun","result":"not_owned","value":"a.example"}"#,
        r#"{"cell":1,"high":1000,"low":1,"number":1,"reply":"ranged","result":"ok"}"#,
        r#"{"cell":4,"number":1,"reply":"ranged","result":"unknown_cell"}"#,
        r#"{"cell":1,"next":2,"number":3,"reply":"ranged","result":"too_far"}"#,
        r#"{"cell":1,"last":0,"number":1,"reply":"ranged","result":"exhausted"}"#,
    ];
    for body in rows {
        assert!(rt; writes_reply(rt.alloc(), body)?, "{body}");
    }
    Ok(())
}

#[test]
fn what_is_no_object_is_no_message(rt: HostRuntime) {
    let rows = [
        b"".as_slice(),
        b" ",
        b"{",
        b"[]",
        b"null",
        b"{} {}",
        b"{\"ask\":\"\xff\"}",
        b"\xef\xbb\xbf{}",
    ];
    for body in rows {
        assert_eq!(rt; request_fault(rt.alloc(), body), Some(BodyFault::NotJson));
        assert_eq!(rt; reply_fault(rt.alloc(), body), Some(BodyFault::NotJson));
    }
}

#[test]
fn a_begin_names_its_first_fault(rt: HostRuntime) {
    let rows = [
        (r#"{}"#, missing(Member::Ask)),
        (r#"{"ask":1}"#, wrong_kind(Member::Ask)),
        (r#"{"ask":"Begin"}"#, bad_value(Member::Ask)),
        (r#"{"ask":"classified"}"#, bad_value(Member::Ask)),
        (r#"{"ask":"begin","creates":1}"#, missing(Member::Lease)),
        (r#"{"ask":"begin","lease":null}"#, wrong_kind(Member::Lease)),
        (
            r#"{"ask":"begin","lease":"00000000-0001-8000-8000-000000000001"}"#,
            bad_value(Member::Lease),
        ),
        (
            r#"{"ask":"begin","lease":"00010000-0001-8000-8000-000000000001"}"#,
            missing(Member::Creates),
        ),
        (
            r#"{"ask":"begin","lease":"00010000-0001-8000-8000-000000000001","creates":{}}"#,
            wrong_kind(Member::Creates),
        ),
        (
            r#"{"ask":"begin","lease":"00010000-0001-8000-8000-000000000001","creates":[{}],"destroys":1}"#,
            missing(Member::Bucket),
        ),
        (
            r#"{"ask":"begin","lease":"00010000-0001-8000-8000-000000000001","creates":[],"destroys":1}"#,
            wrong_kind(Member::Destroys),
        ),
    ];
    finds_faults(&rt, &rows);
}

#[test]
fn a_create_names_its_first_fault(rt: HostRuntime) -> Result<(), Fail> {
    let creates = [
        ("1", wrong_kind(Member::Creates)),
        ("{}", missing(Member::Bucket)),
        (r#"{"bucket":1}"#, wrong_kind(Member::Bucket)),
        (r#"{"bucket":"paths"}"#, bad_value(Member::Bucket)),
        (r#"{"bucket":"route","row":0}"#, missing(Member::Value)),
        (
            r#"{"bucket":"route","value":[]}"#,
            wrong_kind(Member::Value),
        ),
        (
            r#"{"bucket":"route","value":"a//b"},1"#,
            bad_value(Member::Value),
        ),
        (
            r#"{"bucket":"route","value":"a\u0000"}"#,
            bad_value(Member::Value),
        ),
        (
            r#"{"bucket":"route","value":"a"}"#,
            missing(Member::Subject),
        ),
        (
            r#"{"bucket":"route","value":"a","subject":1}"#,
            wrong_kind(Member::Subject),
        ),
        (
            r#"{"bucket":"route","value":"a","subject":"key"}"#,
            bad_value(Member::Subject),
        ),
    ];
    finds_faults_within(&rt, CREATES, &creates)?;
    Ok(())
}

#[test]
fn a_destroy_names_its_first_fault(rt: HostRuntime) -> Result<(), Fail> {
    let destroys = [
        ("[]", wrong_kind(Member::Destroys)),
        (r#"{"value":"a"}"#, missing(Member::Bucket)),
        (r#"{"bucket":"route"}"#, missing(Member::Value)),
        (
            r#"{"bucket":"route","value":"api/x"}"#,
            bad_value(Member::Value),
        ),
    ];
    finds_faults_within(&rt, DESTROYS, &destroys)?;
    Ok(())
}

#[test]
fn a_number_of_a_create_is_whole_and_in_bounds(rt: HostRuntime) -> Result<(), Fail> {
    let start = format!(in rt.alloc();
        "{CREATES}{{\"bucket\":\"route\",\"value\":\"a\",\"subject\":\"group\""
    )?;
    let rows = [
        ("}", missing(Member::SubjectId)),
        (r#","subject_id":"1"}"#, wrong_kind(Member::SubjectId)),
        (r#","subject_id":0}"#, bad_value(Member::SubjectId)),
        (r#","subject_id":1.0}"#, bad_value(Member::SubjectId)),
        (r#","subject_id":1e0}"#, bad_value(Member::SubjectId)),
        (r#","subject_id":-0}"#, bad_value(Member::SubjectId)),
        (
            r#","subject_id":9223372036854775808}"#,
            bad_value(Member::SubjectId),
        ),
        (r#","subject_id":1}"#, missing(Member::Table)),
        (r#","subject_id":1,"table":0}"#, bad_value(Member::Table)),
        (r#","subject_id":1,"table":8}"#, bad_value(Member::Table)),
        (r#","subject_id":1,"table":7}"#, missing(Member::Row)),
        (
            r#","subject_id":1,"table":7,"row":0}"#,
            bad_value(Member::Row),
        ),
    ];
    finds_faults_within(&rt, start.as_str(), &rows)?;
    Ok(())
}

#[test]
fn each_other_ask_names_its_first_fault(rt: HostRuntime) {
    let rows = [
        (r#"{"ask":"commit"}"#, missing(Member::Lease)),
        (r#"{"ask":"rollback","lease":1}"#, wrong_kind(Member::Lease)),
        (r#"{"ask":"list","after":1}"#, missing(Member::Cell)),
        (r#"{"ask":"list","cell":0}"#, bad_value(Member::Cell)),
        (r#"{"ask":"list","cell":1}"#, missing(Member::After)),
        (
            r#"{"ask":"list","cell":1,"after":1}"#,
            wrong_kind(Member::After),
        ),
        (
            r#"{"ask":"list","cell":1,"after":"x"}"#,
            bad_value(Member::After),
        ),
        (r#"{"ask":"range","cell":1000}"#, bad_value(Member::Cell)),
        (r#"{"ask":"range","cell":1}"#, missing(Member::Number)),
        (
            r#"{"ask":"range","cell":1,"number":0}"#,
            bad_value(Member::Number),
        ),
        (r#"{"ask":"claims","cell":1}"#, missing(Member::Bucket)),
    ];
    finds_faults(&rt, &rows);
}

#[test]
fn a_question_names_its_first_fault(rt: HostRuntime) {
    let rows = [
        (r#"{"ask":"classify","cell":0}"#, missing(Member::By)),
        (r#"{"ask":"classify","by":1}"#, wrong_kind(Member::By)),
        (r#"{"ask":"classify","by":"route"}"#, bad_value(Member::By)),
        (
            r#"{"ask":"classify","by":"cell","cell":0}"#,
            bad_value(Member::Cell),
        ),
        (
            r#"{"ask":"classify","by":"session"}"#,
            missing(Member::Text),
        ),
        (
            r#"{"ask":"classify","by":"claim","value":"a"}"#,
            missing(Member::Bucket),
        ),
        (
            r#"{"ask":"classify","by":"claim","bucket":"route","value":"a//b"}"#,
            bad_value(Member::Value),
        ),
    ];
    finds_faults(&rt, &rows);
}

#[test]
fn a_request_for_a_page_names_its_first_fault(rt: HostRuntime) {
    let rows = [
        (
            r#"{"ask":"page","cell":1,"path":1}"#,
            wrong_kind(Member::Path),
        ),
        (
            r#"{"ask":"page","cell":1,"path":""}"#,
            missing(Member::Named),
        ),
        (
            r#"{"ask":"page","cell":1,"path":"","named":0}"#,
            wrong_kind(Member::Named),
        ),
    ];
    finds_faults(&rt, &rows);
}

#[test]
fn a_text_has_a_greatest_length(rt: HostRuntime) -> Result<(), Fail> {
    let most = "a".repeat(rt.alloc(), 2048)?;
    let whole = format!(in rt.alloc(); r#"{{"ask":"classify","by":"path","text":"{most}"}}"#)?;
    assert_eq!(rt; request_fault(rt.alloc(), whole.as_str().as_bytes()), None);
    let long = format!(in rt.alloc(); r#"{{"ask":"classify","by":"path","text":"{most}a"}}"#)?;
    assert_eq!(rt;
        request_fault(rt.alloc(), long.as_str().as_bytes()),
        Some(bad_value(Member::Text))
    );
    Ok(())
}

#[test]
fn a_request_for_claims_names_its_first_fault(rt: HostRuntime) {
    let rows = [
        (
            r#"{"ask":"claims","cell":1,"bucket":"route","last":"x"}"#,
            missing(Member::First),
        ),
        (
            r#"{"ask":"claims","cell":1,"bucket":"route","first":true}"#,
            wrong_kind(Member::First),
        ),
        (
            r#"{"ask":"claims","cell":1,"bucket":"route","first":2}"#,
            missing(Member::Last),
        ),
        (
            r#"{"ask":"claims","cell":1,"bucket":"route","first":2,"last":1}"#,
            bad_value(Member::Last),
        ),
        (
            r#"{"ask":"claims","cell":1,"bucket":"route","first":2,"last":2}"#,
            missing(Member::After),
        ),
        (
            r#"{"ask":"claims","cell":1,"bucket":"route","first":2,"last":2,"after":null}"#,
            wrong_kind(Member::After),
        ),
        (
            r#"{"ask":"claims","cell":1,"bucket":"route","first":2,"last":2,"after":9223372036854775808}"#,
            bad_value(Member::After),
        ),
    ];
    finds_faults(&rt, &rows);
}

#[test]
fn a_reply_names_its_first_fault(rt: HostRuntime) {
    let rows = [
        (r#"{"lease":1}"#, missing(Member::Reply)),
        (r#"{"reply":"classify"}"#, bad_value(Member::Reply)),
        (r#"{"reply":"begun"}"#, missing(Member::Lease)),
        (r#"{"reply":"no_cell","cell":0}"#, bad_value(Member::Cell)),
        (
            r#"{"reply":"leases","cell":1,"leases":["x",1]}"#,
            bad_value(Member::Leases),
        ),
        (
            r#"{"reply":"leases","cell":1,"leases":[1]}"#,
            wrong_kind(Member::Leases),
        ),
        (
            r#"{"reply":"leases","cell":1,"leases":[],"more":0}"#,
            wrong_kind(Member::More),
        ),
        (
            r#"{"reply":"ranged","cell":1,"number":1,"result":"all"}"#,
            bad_value(Member::Result),
        ),
        (
            r#"{"reply":"ranged","cell":1,"number":1,"result":"ok","low":2,"high":1}"#,
            bad_value(Member::High),
        ),
    ];
    finds_reply_faults(&rt, &rows);
}

#[test]
fn an_answer_names_its_first_fault(rt: HostRuntime) {
    let rows = [
        (
            r#"{"reply":"claims","cell":1,"bucket":"route","first":1,"last":1,"after":0,"items":[[]]}"#,
            wrong_kind(Member::Items),
        ),
        (
            r#"{"reply":"classified","by":"first","result":"cell","answer":0}"#,
            bad_value(Member::Answer),
        ),
        (
            r#"{"reply":"classified","by":"first","result":"none"}"#,
            bad_value(Member::Result),
        ),
        (
            r#"{"reply":"page","cell":1,"path":"","named":true,"found":"1"}"#,
            wrong_kind(Member::Found),
        ),
        (
            r#"{"reply":"page","cell":1,"path":"","named":true,"found":9223372036854775808}"#,
            bad_value(Member::Found),
        ),
    ];
    finds_reply_faults(&rt, &rows);
}

#[test]
fn each_fault_has_its_words(rt: HostRuntime) -> Result<(), Fail> {
    let rows = [
        (BodyFault::NotJson, r#"{"fault":"not json"}"#),
        (
            missing(Member::SubjectId),
            r#"{"fault":"missing","member":"subject_id"}"#,
        ),
        (
            wrong_kind(Member::Creates),
            r#"{"fault":"wrong kind","member":"creates"}"#,
        ),
        (
            bad_value(Member::Ask),
            r#"{"fault":"bad value","member":"ask"}"#,
        ),
        (BodyFault::Memory, r#"{"fault":"memory"}"#),
    ];
    for (fault, body) in rows {
        assert_eq!(rt; write_fault(rt.alloc(), fault)?.as_slice(), body.as_bytes());
    }
    Ok(())
}
