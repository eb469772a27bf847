//! Requests as they are read.
ghost use Rattle.std.specs.Prelude.{◌≡◌, ◌≤◌, ◌*◌, length, IfOk};
ghost use Rattle.claim_types.specs.declared.limits.TheConstants.{GREATEST_NUMBER};
ghost use Rattle.std.specs.List.{All};
ghost use Rattle.claim_types.specs.Writable.{IsWritableRequest};
ghost use Rattle.serde_json.specs.View.{view, items_view};
ghost use Rattle.serde_json.specs.Read.{read as read_text};
ghost use Rattle.claim_types.specs.Bounds.{IsCreate, IsKey};
ghost use Rattle.claim_types.specs.MessageBounds.{IsRequest};
ghost use Rattle.message_json.specs.Reading.{Gives, each};
ghost use Rattle.message_json.specs.RequestReader as spec;

use crate::reader::{
    after, array, bucket, cell, claim, flag, key_of, lease, number, question, short_text, text,
};
use crate::{BodyFault, Member};
use claim_types::{
    ClaimItem, ClaimKey, Create, Creates, GREATEST_IDENTIFIER, GREATEST_NUMBER, Items, Keys,
    Operations, Request,
};
use serde_json::Value;
use std::alloc::Global;

#[tactic(auto, unfolding(crate::specs::RequestReader::create_of))]
fn create_of(alloc: Global, value: &Value) -> Result<Create, BodyFault>
    ensures value { Gives result (spec.create_of (view value.now)) }
    ensures bounds { IfOk result IsCreate }
{
    let name = Member::Creates;
    if !value.is_object() {
        return Err(BodyFault::WrongKind { name });
    }
    let bucket = bucket(value)?;
    let ClaimItem {
        key,
        subject,
        origin,
    } = claim(alloc, value, bucket)?;
    Ok(Create {
        key,
        subject,
        origin,
    })
}

#[tactic(auto, unfolding(crate::specs::RequestReader::destroy_of))]
fn destroy_of(alloc: Global, value: &Value) -> Result<ClaimKey, BodyFault>
    ensures value { Gives result (spec.destroy_of (view value.now)) }
    ensures bounds { IfOk result IsKey }
{
    let name = Member::Destroys;
    if !value.is_object() {
        return Err(BodyFault::WrongKind { name });
    }
    key_of(alloc, value)
}

fn creates_of(alloc: Global, values: &[Value]) -> Result<Creates, BodyFault>
    ensures value { Gives result (each spec.create_of (items_view values.now)) }
    ensures bounds { IfOk result (All IsCreate) }
    ensures few { IfOk result (λ creates. length creates * 2 ≤ GREATEST_NUMBER) }
{
    let mut creates = Vec::with_capacity(alloc, values.len())?;
    for value in values {
        let create = create_of(alloc, value)?;
        creates.push(create)?;
    }
    Ok(Items::from_vec(creates))
}

fn destroys_of(alloc: Global, values: &[Value]) -> Result<Keys, BodyFault>
    ensures value { Gives result (each spec.destroy_of (items_view values.now)) }
    ensures bounds { IfOk result (All IsKey) }
    ensures few { IfOk result (λ destroys. length destroys * 2 ≤ GREATEST_NUMBER) }
{
    let mut destroys = Vec::with_capacity(alloc, values.len())?;
    for value in values {
        let destroy = destroy_of(alloc, value)?;
        destroys.push(destroy)?;
    }
    Ok(Items::from_vec(destroys))
}

#[tactic(auto, unfolding(crate::specs::RequestReader::creates_member))]
fn creates(alloc: Global, body: &Value) -> Result<Creates, BodyFault>
    ensures value { Gives result (spec.creates_member (view body.now)) }
    ensures bounds { IfOk result (All IsCreate) }
    ensures few { IfOk result (λ creates. length creates * 2 ≤ GREATEST_NUMBER) }
{
    creates_of(alloc, array(body, Member::Creates)?)
}

#[tactic(auto, unfolding(crate::specs::RequestReader::destroys_member))]
fn destroys(alloc: Global, body: &Value) -> Result<Keys, BodyFault>
    ensures value { Gives result (spec.destroys_member (view body.now)) }
    ensures bounds { IfOk result (All IsKey) }
    ensures few { IfOk result (λ destroys. length destroys * 2 ≤ GREATEST_NUMBER) }
{
    destroys_of(alloc, array(body, Member::Destroys)?)
}

#[tactic(auto, unfolding(crate::specs::RequestReader::begin_of))]
fn begin(alloc: Global, body: &Value) -> Result<Request, BodyFault>
    ensures value { Gives result (spec.begin_of (view body.now)) }
    ensures bounds { IfOk result IsRequest }
{
    let lease = lease(body, Member::Lease)?;
    let creates = creates(alloc, body)?;
    let destroys = destroys(alloc, body)?;
    let ops = Operations { creates, destroys };
    Ok(Request::Begin { lease, ops })
}

#[tactic(auto, unfolding(crate::specs::RequestReader::list_of))]
fn list(body: &Value) -> Result<Request, BodyFault>
    ensures value { Gives result (spec.list_of (view body.now)) }
    ensures bounds { IfOk result IsRequest }
{
    let cell = cell(body, Member::Cell)?;
    let after = after(body)?;
    Ok(Request::List { cell, after })
}

#[tactic(auto, unfolding(crate::specs::RequestReader::range_of))]
fn range(body: &Value) -> Result<Request, BodyFault>
    ensures value { Gives result (spec.range_of (view body.now)) }
    ensures bounds { IfOk result IsRequest }
{
    let cell = cell(body, Member::Cell)?;
    let number = number(body, Member::Number, 1, GREATEST_NUMBER)?;
    Ok(Request::Range { cell, number })
}

#[tactic(auto, unfolding(crate::specs::RequestReader::claims_of))]
fn claims(body: &Value) -> Result<Request, BodyFault>
    ensures value { Gives result (spec.claims_of (view body.now)) }
    ensures bounds { IfOk result IsRequest }
{
    let cell = cell(body, Member::Cell)?;
    let bucket = bucket(body)?;
    let first = number(body, Member::First, 0, GREATEST_NUMBER)?;
    let last = number(body, Member::Last, first, GREATEST_NUMBER)?;
    let after = number(body, Member::After, 0, GREATEST_IDENTIFIER)?;
    Ok(Request::Claims {
        cell,
        bucket,
        first,
        last,
        after,
    })
}

#[tactic(auto, unfolding(crate::specs::RequestReader::page_of))]
fn page(alloc: Global, body: &Value) -> Result<Request, BodyFault>
    ensures value { Gives result (spec.page_of (view body.now)) }
    ensures bounds { IfOk result IsRequest }
{
    let cell = cell(body, Member::Cell)?;
    let path = short_text(alloc, body, Member::Path)?;
    let named = flag(body, Member::Named)?;
    Ok(Request::Page { cell, path, named })
}

fn asked(alloc: Global, ask: &str, body: &Value) -> Result<Request, BodyFault>
    ensures value { Gives result (spec.asked ask.now (view body.now)) }
    ensures bounds { IfOk result IsRequest }
{
    match ask {
        "begin" => begin(alloc, body),
        "commit" => {
            let lease = lease(body, Member::Lease)?;
            Ok(Request::Commit { lease })
        }
        "rollback" => {
            let lease = lease(body, Member::Lease)?;
            Ok(Request::Rollback { lease })
        }
        "list" => list(body),
        "range" => range(body),
        "claims" => claims(body),
        "classify" => {
            let question = question(alloc, body)?;
            Ok(Request::Classify { question })
        }
        "page" => page(alloc, body),
        _ => Err(BodyFault::BadValue { name: Member::Ask }),
    }
}

#[tactic(auto, unfolding(crate::specs::RequestReader::of_object))]
fn request_of_object(alloc: Global, body: &Value) -> Result<Request, BodyFault>
    ensures value { Gives result (spec.of_object (view body.now)) }
    ensures bounds { IfOk result IsRequest }
{
    asked(alloc, text(body, Member::Ask)?, body)
}

fn request_in(alloc: Global, body: &Value) -> Result<Request, BodyFault>
    ensures value { Gives result (spec.of_data (view body.now)) }
    ensures bounds { IfOk result IsRequest }
{
    if !body.is_object() {
        return Err(BodyFault::NotJson);
    }
    request_of_object(alloc, body)
}

fn request_of_text(alloc: Global, text: &str) -> Result<Request, BodyFault>
    ensures value { Gives result (spec.of_read (read_text text.now)) }
    ensures bounds { IfOk result IsRequest }
{
    match Value::from_str(alloc, text) {
        Ok(value) => request_in(alloc, &value),
        Err(error) => {
            if error.is_memory() {
                return Err(BodyFault::Memory);
            }
            Err(BodyFault::NotJson)
        }
    }
}

/// The request that a body is: a JSON object in UTF-8 whose `ask` names one of the requests, with
/// the members that `specs/RequestReader` gives it. Otherwise the first fault in the order of these
/// members. How many operations a begin has is left to the service to judge.
pub fn read_request(alloc: Global, body: &[u8]) -> Result<Request, BodyFault>
    ensures value { Gives result (spec.request_of body.now) }
    ensures writable { IfOk result IsWritableRequest }
    ensures bounds { IfOk result IsRequest }
{
    match str::from_utf8(body) {
        Ok(text) => request_of_text(alloc, text),
        Err(_) => Err(BodyFault::NotJson),
    }
}
