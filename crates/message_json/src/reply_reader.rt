//! Replies as they are read.
ghost use Rattle.std.specs.Prelude.{◌≡◌, IfOk};
ghost use Rattle.std.specs.List.{All};
ghost use Rattle.claim_types.specs.Leases.{IsLease};
ghost use Rattle.claim_types.specs.Writable.{IsWritableReply};
ghost use Rattle.serde_json.specs.View.{view, items_view};
ghost use Rattle.serde_json.specs.Read.{read as read_text};
ghost use Rattle.claim_types.specs.Bounds.{IsClaim};
ghost use Rattle.claim_types.specs.MessageBounds.{IsBegunResult, IsClass, IsDenial, IsFound, IsRangedResult, IsReply};
ghost use Rattle.message_json.specs.Reading.{Gives, each};
ghost use Rattle.message_json.specs.ReplyReader as spec;

use crate::reader::{
    array, bucket, cell, claim, flag, key_of, lease, lease_named, member_of, number, question,
    short_text, text,
};
use crate::{BodyFault, Member};
use claim_types::{
    BegunResult, Bucket, ClaimItem, ClaimItems, ClaimPage, Class, CommittedResult, Denial,
    GREATEST_IDENTIFIER, GREATEST_NUMBER, How, Items, LeaseId, LeaseIds, LeasePage, RangedResult,
    Reply, RolledBackResult,
};
use serde_json::Value;
use std::alloc::Global;

#[tactic(auto, unfolding(crate::specs::ReplyReader::how_member))]
fn how(body: &Value) -> Result<How, BodyFault>
    ensures { result ≡ spec.how_member (view body.now) }
{
    let name = Member::How;
    match text(body, name)? {
        "committed" => Ok(How::Committed),
        "rolled_back" => Ok(How::RolledBack),
        _ => Err(BodyFault::BadValue { name }),
    }
}

#[tactic(auto, unfolding(crate::specs::ReplyReader::keyed_denial_of))]
fn keyed_denial(alloc: Global, word: &str, body: &Value) -> Result<Denial, BodyFault>
    ensures value { Gives result (spec.keyed_denial_of word.now (view body.now)) }
    ensures bounds { IfOk result IsDenial }
{
    match word {
        "twice" => {
            let key = key_of(alloc, body)?;
            Ok(Denial::Twice { key })
        }
        "owned" => {
            let key = key_of(alloc, body)?;
            let cell = cell(body, Member::Owner)?;
            Ok(Denial::Owned { key, cell })
        }
        "leased" => {
            let key = key_of(alloc, body)?;
            let lease = lease(body, Member::By)?;
            Ok(Denial::Leased { key, lease })
        }
        "not_owned" => {
            let key = key_of(alloc, body)?;
            Ok(Denial::NotOwned { key })
        }
        _ => {
            Err(BodyFault::BadValue {
                name: Member::Result,
            })
        }
    }
}

#[tactic(auto, unfolding(crate::specs::ReplyReader::denial_of))]
fn denial(alloc: Global, word: &str, body: &Value) -> Result<Denial, BodyFault>
    ensures value { Gives result (spec.denial_of word.now (view body.now)) }
    ensures bounds { IfOk result IsDenial }
{
    match word {
        "settled" => {
            let how = how(body)?;
            Ok(Denial::Settled { how })
        }
        "other_operations" => Ok(Denial::OtherOperations),
        "count" => {
            let n = number(body, Member::N, 0, GREATEST_NUMBER)?;
            Ok(Denial::NoneOrTooMany { n })
        }
        "foreign_id" => {
            let id = number(body, Member::Id, 0, GREATEST_NUMBER)?;
            Ok(Denial::ForeignId { id })
        }
        "too_many_open" => Ok(Denial::TooManyOpen),
        _ => keyed_denial(alloc, word, body),
    }
}

#[tactic(auto, unfolding(crate::specs::ReplyReader::begun_member))]
fn begun_result(alloc: Global, body: &Value) -> Result<BegunResult, BodyFault>
    ensures value { Gives result (spec.begun_member (view body.now)) }
    ensures bounds { IfOk result IsBegunResult }
{
    let word = text(body, Member::Result)?;
    if word == "ok" {
        return Ok(BegunResult::Good);
    }
    let denial = denial(alloc, word, body)?;
    Ok(BegunResult::Denied(denial))
}

#[tactic(auto, unfolding(crate::specs::ReplyReader::begun_of))]
fn begun(alloc: Global, body: &Value) -> Result<Reply, BodyFault>
    ensures value { Gives result (spec.begun_of (view body.now)) }
    ensures bounds { IfOk result IsReply }
{
    let lease = lease(body, Member::Lease)?;
    let result = begun_result(alloc, body)?;
    Ok(Reply::Begun { lease, result })
}

#[tactic(auto, unfolding(crate::specs::ReplyReader::committed_member))]
fn committed_result(body: &Value) -> Result<CommittedResult, BodyFault>
    ensures { result ≡ spec.committed_member (view body.now) }
{
    let name = Member::Result;
    match text(body, name)? {
        "ok" => Ok(CommittedResult::Good),
        "unknown" => Ok(CommittedResult::Unknown),
        "was_rolled_back" => Ok(CommittedResult::WasRolledBack),
        _ => Err(BodyFault::BadValue { name }),
    }
}

#[tactic(auto, unfolding(crate::specs::ReplyReader::committed_of))]
fn committed(body: &Value) -> Result<Reply, BodyFault>
    ensures value { Gives result (spec.committed_of (view body.now)) }
    ensures bounds { IfOk result IsReply }
{
    let lease = lease(body, Member::Lease)?;
    let result = committed_result(body)?;
    Ok(Reply::Committed { lease, result })
}

#[tactic(auto, unfolding(crate::specs::ReplyReader::rolled_back_member))]
fn rolled_back_result(body: &Value) -> Result<RolledBackResult, BodyFault>
    ensures { result ≡ spec.rolled_back_member (view body.now) }
{
    let name = Member::Result;
    match text(body, name)? {
        "ok" => Ok(RolledBackResult::Good),
        "was_committed" => Ok(RolledBackResult::WasCommitted),
        _ => Err(BodyFault::BadValue { name }),
    }
}

#[tactic(auto, unfolding(crate::specs::ReplyReader::rolled_back_of))]
fn rolled_back(body: &Value) -> Result<Reply, BodyFault>
    ensures value { Gives result (spec.rolled_back_of (view body.now)) }
    ensures bounds { IfOk result IsReply }
{
    let lease = lease(body, Member::Lease)?;
    let result = rolled_back_result(body)?;
    Ok(Reply::RolledBack { lease, result })
}

#[tactic(auto, unfolding(crate::specs::ReplyReader::lease_element))]
fn lease_element(value: &Value) -> Result<LeaseId, BodyFault>
    ensures value { Gives result (spec.lease_element (view value.now)) }
    ensures bounds { IfOk result IsLease }
{
    let name = Member::Leases;
    let Some(text) = value.as_str() else {
        return Err(BodyFault::WrongKind { name });
    };
    match lease_named(text) {
        Some(lease) => Ok(lease),
        None => Err(BodyFault::BadValue { name }),
    }
}

fn lease_elements(alloc: Global, values: &[Value]) -> Result<LeaseIds, BodyFault>
    ensures value { Gives result (each spec.lease_element (items_view values.now)) }
    ensures bounds { IfOk result (All IsLease) }
{
    let mut leases = Vec::with_capacity(alloc, values.len())?;
    for value in values {
        let lease = lease_element(value)?;
        leases.push(lease)?;
    }
    Ok(Items::from_vec(leases))
}

#[tactic(auto, unfolding(crate::specs::ReplyReader::leases_member))]
fn leases_in(alloc: Global, body: &Value) -> Result<LeaseIds, BodyFault>
    ensures value { Gives result (spec.leases_member (view body.now)) }
    ensures bounds { IfOk result (All IsLease) }
{
    lease_elements(alloc, array(body, Member::Leases)?)
}

#[tactic(auto, unfolding(crate::specs::ReplyReader::leases_of))]
fn leases(alloc: Global, body: &Value) -> Result<Reply, BodyFault>
    ensures value { Gives result (spec.leases_of (view body.now)) }
    ensures bounds { IfOk result IsReply }
{
    let cell = cell(body, Member::Cell)?;
    let leases = leases_in(alloc, body)?;
    let more = flag(body, Member::More)?;
    let page = LeasePage { leases, more };
    Ok(Reply::Leases { cell, page })
}

#[tactic(auto, unfolding(crate::specs::ReplyReader::ranged_member))]
fn ranged_result(body: &Value) -> Result<RangedResult, BodyFault>
    ensures value { Gives result (spec.ranged_member (view body.now)) }
    ensures bounds { IfOk result IsRangedResult }
{
    let name = Member::Result;
    match text(body, name)? {
        "ok" => {
            let low = number(body, Member::Low, 1, GREATEST_IDENTIFIER)?;
            let high = number(body, Member::High, low, GREATEST_IDENTIFIER)?;
            Ok(RangedResult::Good { low, high })
        }
        "unknown_cell" => Ok(RangedResult::UnknownCell),
        "too_far" => {
            let next = number(body, Member::Next, 1, GREATEST_NUMBER)?;
            Ok(RangedResult::TooFar { next })
        }
        "exhausted" => {
            let last = number(body, Member::Last, 0, GREATEST_IDENTIFIER)?;
            Ok(RangedResult::Exhausted { last })
        }
        _ => Err(BodyFault::BadValue { name }),
    }
}

#[tactic(auto, unfolding(crate::specs::ReplyReader::ranged_of))]
fn ranged(body: &Value) -> Result<Reply, BodyFault>
    ensures value { Gives result (spec.ranged_of (view body.now)) }
    ensures bounds { IfOk result IsReply }
{
    let cell = cell(body, Member::Cell)?;
    let number = number(body, Member::Number, 1, GREATEST_NUMBER)?;
    let result = ranged_result(body)?;
    Ok(Reply::Ranged {
        cell,
        number,
        result,
    })
}

#[tactic(auto, unfolding(crate::specs::ReplyReader::claim_element))]
fn claim_element(alloc: Global, value: &Value, bucket: Bucket) -> Result<ClaimItem, BodyFault>
    ensures value { Gives result (spec.claim_element bucket (view value.now)) }
    ensures bounds { IfOk result (IsClaim bucket) }
{
    let name = Member::Items;
    if !value.is_object() {
        return Err(BodyFault::WrongKind { name });
    }
    claim(alloc, value, bucket)
}

fn claim_elements(alloc: Global, values: &[Value], bucket: Bucket) -> Result<ClaimItems, BodyFault>
    ensures value { Gives result (each (spec.claim_element bucket) (items_view values.now)) }
    ensures bounds { IfOk result (All (IsClaim bucket)) }
{
    let mut claims = Vec::with_capacity(alloc, values.len())?;
    for value in values {
        let claim = claim_element(alloc, value, bucket)?;
        claims.push(claim)?;
    }
    Ok(Items::from_vec(claims))
}

#[tactic(auto, unfolding(crate::specs::ReplyReader::items_member))]
fn items(alloc: Global, body: &Value, bucket: Bucket) -> Result<ClaimItems, BodyFault>
    ensures value { Gives result (spec.items_member bucket (view body.now)) }
    ensures bounds { IfOk result (All (IsClaim bucket)) }
{
    claim_elements(alloc, array(body, Member::Items)?, bucket)
}

#[tactic(auto, unfolding(crate::specs::ReplyReader::claims_of))]
fn claims(alloc: Global, body: &Value) -> Result<Reply, BodyFault>
    ensures value { Gives result (spec.claims_of (view body.now)) }
    ensures bounds { IfOk result IsReply }
{
    let cell = cell(body, Member::Cell)?;
    let bucket = bucket(body)?;
    let first = number(body, Member::First, 0, GREATEST_NUMBER)?;
    let last = number(body, Member::Last, first, GREATEST_NUMBER)?;
    let after = number(body, Member::After, 0, GREATEST_IDENTIFIER)?;
    let items = items(alloc, body, bucket)?;
    let more = flag(body, Member::More)?;
    Ok(Reply::Claims {
        cell,
        bucket,
        first,
        last,
        after,
        page: ClaimPage { items, more },
    })
}

#[tactic(auto, unfolding(crate::specs::ReplyReader::class_member))]
fn class(body: &Value) -> Result<Class, BodyFault>
    ensures value { result ≡ spec.class_member (view body.now) }
    ensures bounds { IfOk result IsClass }
{
    let name = Member::Result;
    match text(body, name)? {
        "cell" => {
            let id = cell(body, Member::Answer)?;
            Ok(Class::Cell { id })
        }
        "not_found" => Ok(Class::NotFound),
        "unknown_cell" => Ok(Class::UnknownCell),
        _ => Err(BodyFault::BadValue { name }),
    }
}

#[tactic(auto, unfolding(crate::specs::ReplyReader::classified_of))]
fn classified(alloc: Global, body: &Value) -> Result<Reply, BodyFault>
    ensures value { Gives result (spec.classified_of (view body.now)) }
    ensures bounds { IfOk result IsReply }
{
    let question = question(alloc, body)?;
    let class = class(body)?;
    Ok(Reply::Classified { question, class })
}

fn found_or_null(value: &Value) -> Result<Option<u64>, BodyFault>
    ensures value { result ≡ spec.found_or_null (view value.now) }
    ensures bounds { IfOk result IsFound }
{
    let name = Member::Found;
    match value {
        Value::Null => Ok(None),
        Value::Number(number) => {
            match number.as_u64() {
                Some(id) if id <= GREATEST_IDENTIFIER => Ok(Some(id)),
                _ => Err(BodyFault::BadValue { name }),
            }
        }
        _ => Err(BodyFault::WrongKind { name }),
    }
}

#[tactic(auto, unfolding(crate::specs::ReplyReader::found_member))]
fn found(body: &Value) -> Result<Option<u64>, BodyFault>
    ensures value { result ≡ spec.found_member (view body.now) }
    ensures bounds { IfOk result IsFound }
{
    found_or_null(member_of(body, Member::Found)?)
}

#[tactic(auto, unfolding(crate::specs::ReplyReader::page_of))]
fn page(alloc: Global, body: &Value) -> Result<Reply, BodyFault>
    ensures value { Gives result (spec.page_of (view body.now)) }
    ensures bounds { IfOk result IsReply }
{
    let cell = cell(body, Member::Cell)?;
    let path = short_text(alloc, body, Member::Path)?;
    let named = flag(body, Member::Named)?;
    let found = found(body)?;
    Ok(Reply::Page {
        cell,
        path,
        named,
        found,
    })
}

#[tactic(auto, unfolding(crate::specs::ReplyReader::no_cell_of))]
fn no_cell(body: &Value) -> Result<Reply, BodyFault>
    ensures value { Gives result (spec.no_cell_of (view body.now)) }
    ensures bounds { IfOk result IsReply }
{
    let cell = cell(body, Member::Cell)?;
    Ok(Reply::NoCell { cell })
}

fn replied(alloc: Global, word: &str, body: &Value) -> Result<Reply, BodyFault>
    ensures value { Gives result (spec.replied word.now (view body.now)) }
    ensures bounds { IfOk result IsReply }
{
    match word {
        "begun" => begun(alloc, body),
        "committed" => committed(body),
        "rolled_back" => rolled_back(body),
        "leases" => leases(alloc, body),
        "ranged" => ranged(body),
        "claims" => claims(alloc, body),
        "classified" => classified(alloc, body),
        "page" => page(alloc, body),
        "no_cell" => no_cell(body),
        _ => {
            Err(BodyFault::BadValue {
                name: Member::Reply,
            })
        }
    }
}

#[tactic(auto, unfolding(crate::specs::ReplyReader::of_object))]
fn reply_of_object(alloc: Global, body: &Value) -> Result<Reply, BodyFault>
    ensures value { Gives result (spec.of_object (view body.now)) }
    ensures bounds { IfOk result IsReply }
{
    replied(alloc, text(body, Member::Reply)?, body)
}

fn reply_in(alloc: Global, body: &Value) -> Result<Reply, BodyFault>
    ensures value { Gives result (spec.of_data (view body.now)) }
    ensures bounds { IfOk result IsReply }
{
    if !body.is_object() {
        return Err(BodyFault::NotJson);
    }
    reply_of_object(alloc, body)
}

fn reply_of_text(alloc: Global, text: &str) -> Result<Reply, BodyFault>
    ensures value { Gives result (spec.of_read (read_text text.now)) }
    ensures bounds { IfOk result IsReply }
{
    match Value::from_str(alloc, text) {
        Ok(value) => reply_in(alloc, &value),
        Err(error) => {
            if error.is_memory() {
                return Err(BodyFault::Memory);
            }
            Err(BodyFault::NotJson)
        }
    }
}

/// The reply that a body is: a JSON object in UTF-8 whose `reply` names one of the replies, with
/// the members that `specs/ReplyReader` gives it. Otherwise the first fault in the order of these
/// members. The claims of a page have the page's bucket.
pub fn read_reply(alloc: Global, body: &[u8]) -> Result<Reply, BodyFault>
    ensures value { Gives result (spec.reply_of body.now) }
    ensures writable { IfOk result IsWritableReply }
    ensures bounds { IfOk result IsReply }
{
    match str::from_utf8(body) {
        Ok(text) => reply_of_text(alloc, text),
        Err(_) => Err(BodyFault::NotJson),
    }
}
