//! The members of a body, each read by its rule.
ghost use Rattle.std.specs.Prelude.{◌≡◌, ◌≤◌, IfOk, IfSome};
ghost use Rattle.claim_types.specs.Bounds.{IsCell, IsSubjectKind, IsClaim, IsKey, IsText};
ghost use Rattle.claim_types.specs.MessageBounds.{IsAfter, IsQuestion};
ghost use Rattle.claim_types.specs.Leases.{IsLease};
ghost use Rattle.serde_json.specs.View.{view, items_view};
ghost use Rattle.message_json.specs.Reading as spec;
ghost use Rattle.message_json.specs.Reading.{Gives};

use crate::{BodyFault, Member};
use claim_types::{
    Bucket, ClaimItem, ClaimKey, GREATEST_CELL, GREATEST_IDENTIFIER, KeyFault, Kind, LeaseId,
    Origin, Question, Subject, TEXT_BYTES, Text,
};
use serde_json::Value;
use std::alloc::Global;
use uuid::Uuid;

#[tactic(auto, unfolding(crate::specs::Reading::member_of))]
pub fn member_of(body: &Value, name: Member) -> Result<&Value, BodyFault>
    ensures { spec.Finds result (spec.member_of name (view body.now)) }
{
    match body.get(name.text()) {
        Some(value) => Ok(value),
        None => Err(BodyFault::Missing { name }),
    }
}

#[tactic(auto, unfolding(crate::specs::Reading::text_member))]
pub fn text(body: &Value, name: Member) -> Result<&str, BodyFault>
    ensures { spec.FindsText result (spec.text_member name (view body.now)) }
{
    match member_of(body, name)?.as_str() {
        Some(text) => Ok(text),
        None => Err(BodyFault::WrongKind { name }),
    }
}

#[tactic(auto, unfolding(crate::specs::Reading::number_member))]
pub fn number(body: &Value, name: Member, low: u64, high: u64) -> Result<u64, BodyFault>
    ensures value { result ≡ spec.number_member name low high (view body.now) }
    ensures low { IfOk result (λ n. low ≤ n) }
    ensures high { IfOk result (λ n. n ≤ high) }
{
    let value = member_of(body, name)?;
    if !value.is_number() {
        return Err(BodyFault::WrongKind { name });
    }
    match value.as_u64() {
        Some(n) => {
            if n < low || high < n {
                return Err(BodyFault::BadValue { name });
            }
            Ok(n)
        }
        None => Err(BodyFault::BadValue { name }),
    }
}

pub fn cell(body: &Value, name: Member) -> Result<u16, BodyFault>
    ensures value { result ≡ spec.cell_named name (view body.now) }
    ensures bounds { IfOk result IsCell }
{
    let cell = number(body, name, 1, GREATEST_CELL as u64)?;
    Ok(cell as u16)
}

#[tactic(auto, unfolding(crate::specs::Reading::flag_member))]
pub fn flag(body: &Value, name: Member) -> Result<bool, BodyFault>
    ensures { result ≡ spec.flag_member name (view body.now) }
{
    match member_of(body, name)?.as_bool() {
        Some(flag) => Ok(flag),
        None => Err(BodyFault::WrongKind { name }),
    }
}

#[tactic(auto, unfolding(crate::specs::Reading::array_member))]
pub fn array(body: &Value, name: Member) -> Result<&[Value], BodyFault>
    ensures { spec.FindsItems result (spec.array_member name (view body.now)) }
{
    match member_of(body, name)?.as_array() {
        Some(items) => Ok(items.as_slice()),
        None => Err(BodyFault::WrongKind { name }),
    }
}

#[tactic(auto, unfolding(crate::specs::Reading::lease_named))]
pub fn lease_named(text: &str) -> Option<LeaseId>
    ensures value { result ≡ spec.lease_named text.now }
    ensures bounds { IfSome result IsLease }
{
    match Uuid::parse_str(text) {
        Ok(id) => LeaseId::from_uuid(id),
        Err(_) => None,
    }
}

#[tactic(auto, unfolding(crate::specs::Reading::lease_member))]
pub fn lease(body: &Value, name: Member) -> Result<LeaseId, BodyFault>
    ensures value { result ≡ spec.lease_member name (view body.now) }
    ensures bounds { IfOk result IsLease }
{
    match lease_named(text(body, name)?) {
        Some(lease) => Ok(lease),
        None => Err(BodyFault::BadValue { name }),
    }
}

fn lease_or_null(value: &Value, name: Member) -> Result<Option<LeaseId>, BodyFault>
    ensures value { result ≡ spec.lease_or_null name (view value.now) }
    ensures bounds { IfOk result IsAfter }
{
    match value {
        Value::Null => Ok(None),
        Value::String(text) => {
            match lease_named(text.as_str()) {
                Some(lease) => Ok(Some(lease)),
                None => Err(BodyFault::BadValue { name }),
            }
        }
        _ => Err(BodyFault::WrongKind { name }),
    }
}

#[tactic(auto, unfolding(crate::specs::Reading::after_member))]
pub fn after(body: &Value) -> Result<Option<LeaseId>, BodyFault>
    ensures value { result ≡ spec.after_member (view body.now) }
    ensures bounds { IfOk result IsAfter }
{
    let name = Member::After;
    lease_or_null(member_of(body, name)?, name)
}

#[tactic(auto, unfolding(crate::specs::Reading::bucket_member))]
pub fn bucket(body: &Value) -> Result<Bucket, BodyFault>
    ensures { result ≡ spec.bucket_member (view body.now) }
{
    let name = Member::Bucket;
    match Bucket::from_name(text(body, name)?) {
        Some(bucket) => Ok(bucket),
        None => Err(BodyFault::BadValue { name }),
    }
}

#[tactic(auto, unfolding(crate::specs::Reading::subject_kind_member))]
fn subject_kind(body: &Value) -> Result<Kind, BodyFault>
    ensures value { result ≡ spec.subject_kind_member (view body.now) }
    ensures bounds { IfOk result IsSubjectKind }
{
    let name = Member::Subject;
    match Kind::subject_from_name(text(body, name)?) {
        Some(kind) => Ok(kind),
        None => Err(BodyFault::BadValue { name }),
    }
}

#[tactic(auto, unfolding(crate::specs::Reading::table_member))]
fn table(body: &Value) -> Result<Kind, BodyFault>
    ensures { result ≡ spec.table_member (view body.now) }
{
    let name = Member::Table;
    let number = number(body, name, 1, 7)?;
    match Kind::from_number(number as u8) {
        Some(kind) => Ok(kind),
        None => Err(BodyFault::BadValue { name }),
    }
}

#[tactic(auto, unfolding(crate::specs::Reading::key_member))]
fn key(alloc: Global, body: &Value, bucket: Bucket) -> Result<ClaimKey, BodyFault>
    ensures value { Gives result (spec.key_member bucket (view body.now)) }
    ensures bounds { IfOk result IsKey }
    ensures bucket { IfOk result (λ key. key.bucket ≡ bucket) }
{
    let name = Member::Value;
    match ClaimKey::read(alloc, bucket, text(body, name)?.as_bytes()) {
        Ok(key) => Ok(key),
        Err(KeyFault::Memory) => Err(BodyFault::Memory),
        Err(_) => Err(BodyFault::BadValue { name }),
    }
}

// A key by its bucket and its value.
#[tactic(auto, unfolding(crate::specs::Reading::key_members))]
pub fn key_of(alloc: Global, body: &Value) -> Result<ClaimKey, BodyFault>
    ensures value { Gives result (spec.key_members (view body.now)) }
    ensures bounds { IfOk result IsKey }
{
    let bucket = bucket(body)?;
    key(alloc, body, bucket)
}

// The members of a claim of this bucket.
#[tactic(auto, unfolding(crate::specs::Reading::claim_members))]
pub fn claim(alloc: Global, body: &Value, bucket: Bucket) -> Result<ClaimItem, BodyFault>
    ensures value { Gives result (spec.claim_members bucket (view body.now)) }
    ensures bounds { IfOk result (IsClaim bucket) }
{
    let key = key(alloc, body, bucket)?;
    let kind = subject_kind(body)?;
    let id = number(body, Member::SubjectId, 1, GREATEST_IDENTIFIER)?;
    let table = table(body)?;
    let row = number(body, Member::Row, 1, GREATEST_IDENTIFIER)?;
    Ok(ClaimItem {
        key,
        subject: Subject { kind, id },
        origin: Origin { table, row },
    })
}

// A text that is asked for, which is not too long.
#[tactic(auto, unfolding(crate::specs::Reading::short_member))]
pub fn short_text(alloc: Global, body: &Value, name: Member) -> Result<Text, BodyFault>
    ensures value { Gives result (spec.short_member name (view body.now)) }
    ensures bounds { IfOk result IsText }
{
    let text = text(body, name)?;
    if TEXT_BYTES < text.len() as u64 {
        return Err(BodyFault::BadValue { name });
    }
    Ok(Text::from_slice(alloc, text.as_bytes())?)
}

fn question_by(alloc: Global, word: &str, body: &Value) -> Result<Question, BodyFault>
    ensures value { Gives result (spec.question_by word.now (view body.now)) }
    ensures bounds { IfOk result IsQuestion }
{
    match word {
        "first" => Ok(Question::First),
        "cell" => {
            let id = cell(body, Member::Cell)?;
            Ok(Question::Cell { id })
        }
        "session" => {
            let text = short_text(alloc, body, Member::Text)?;
            Ok(Question::Session { text })
        }
        "claim" => {
            let key = key_of(alloc, body)?;
            Ok(Question::Claim { key })
        }
        "path" => {
            let text = short_text(alloc, body, Member::Text)?;
            Ok(Question::Path { text })
        }
        _ => Err(BodyFault::BadValue { name: Member::By }),
    }
}

// A question, by the word that it is asked by and the members of that word.
#[tactic(auto, unfolding(crate::specs::Reading::question_member))]
pub fn question(alloc: Global, body: &Value) -> Result<Question, BodyFault>
    ensures value { Gives result (spec.question_member (view body.now)) }
    ensures bounds { IfOk result IsQuestion }
{
    question_by(alloc, text(body, Member::By)?, body)
}
