//! Requests as they are written.
ghost use Rattle.std.specs.Prelude.{◌≡◌, IfOk, IsUtf8, codes, map};
ghost use Rattle.std.specs.List.{All};
ghost use Rattle.serde_json.specs.Data.{null, string, object, no_members};
ghost use Rattle.claim_types.specs.declared.question.Question.TheVariants as question;
ghost use Rattle.claim_types.specs.Names.{bucket_name};
ghost use Rattle.claim_types.specs.MessageBounds.{IsAfter, IsRequest};
ghost use Rattle.message_json.specs.RequestReader.{request_of};
ghost use Rattle.serde_json.specs.View.{view, items_view, items_of};
ghost use Rattle.claim_types.specs.Leases.{IsLease, lease_text};
ghost use Rattle.claim_types.specs.Writable.{AreWritable, IsWritableKey, IsWritableQuestion, IsWritableRequest};
ghost use Rattle.message_json.specs.Texts.{text};
ghost use Rattle.message_json.specs.RequestWriter as spec;

use crate::texts::{compact, lease_text, text_of};
use claim_types::{
    Bucket, ClaimKey, Create, LeaseId, NoMemory, Operations, Question, Request, Text,
};
use serde_json::{Value, json};
use std::alloc::{AllocError, Global};
use uuid::Uuid;

fn create_value(alloc: Global, create: &Create) -> Result<Value, AllocError>
    requires { IsWritableKey create.now.key }
    ensures { IfOk result (λ v. view v ≡ spec.create_data create.now) }
{
    let bucket = create.key.bucket.name();
    let value = text_of(&create.key.value);
    let subject = create.subject.kind.name();
    let id = create.subject.id;
    let table = create.origin.table.number();
    let row = create.origin.row;
    json!(in alloc; { "bucket": bucket, "row": row, "subject": subject, "subject_id": id, "table": table, "value": value })
}

fn destroy_value(alloc: Global, key: &ClaimKey) -> Result<Value, AllocError>
    requires { IsWritableKey key.now }
    ensures { IfOk result (λ v. view v ≡ spec.destroy_data key.now) }
{
    let bucket = key.bucket.name();
    let value = text_of(&key.value);
    json!(in alloc; { "bucket": bucket, "value": value })
}

fn create_values(alloc: Global, creates: &[Create]) -> Result<Vec<Value>, AllocError>
    requires { All (λ create. IsWritableKey create.key) creates.now }
    ensures { IfOk result (λ values. map view values.items ≡ map spec.create_data creates.now) }
{
    let mut values = Vec::with_capacity(alloc, creates.len())?;
    for create in creates {
        let value = create_value(alloc, create)?;
        values.push(value)?;
    }
    Ok(values)
}

fn destroy_values(alloc: Global, destroys: &[ClaimKey]) -> Result<Vec<Value>, AllocError>
    requires { All IsWritableKey destroys.now }
    ensures { IfOk result (λ values. map view values.items ≡ map spec.destroy_data destroys.now) }
{
    let mut values = Vec::with_capacity(alloc, destroys.len())?;
    for key in destroys {
        let value = destroy_value(alloc, key)?;
        values.push(value)?;
    }
    Ok(values)
}

fn begin_value(
    alloc: Global,
    lease: &str,
    creates: Vec<Value>,
    destroys: Vec<Value>,
) -> Result<Value, AllocError>
    ensures { IfOk result (λ v. view v ≡
        spec.begin_data lease.now (items_view creates.items) (items_view destroys.items)) }
{
    json!(in alloc; { "ask": "begin", "creates": creates, "destroys": destroys, "lease": lease })
}

fn begin(alloc: Global, lease: LeaseId, ops: &Operations) -> Result<Value, AllocError>
    requires bounds { IsLease lease }
    requires texts { AreWritable ops.now }
    ensures { IfOk result (λ v. view v ≡
        spec.begin_data (lease_text lease) (items_of (map spec.create_data ops.now.creates)) (items_of
        (map spec.destroy_data ops.now.destroys))) }
{
    let creates = create_values(alloc, ops.creates.as_slice())?;
    let destroys = destroy_values(alloc, ops.destroys.as_slice())?;
    let mut room = Uuid::encode_buffer();
    begin_value(alloc, lease_text(lease, &mut room), creates, destroys)
}

fn lease_value(alloc: Global, ask: &str, lease: &str) -> Result<Value, AllocError>
    ensures { IfOk result (λ v. view v ≡ spec.lease_data ask.now lease.now) }
{
    json!(in alloc; { "ask": ask, "lease": lease })
}

fn about_lease(alloc: Global, ask: &str, lease: LeaseId) -> Result<Value, AllocError>
    requires { IsLease lease }
    ensures { IfOk result (λ v. view v ≡ spec.lease_data ask.now (lease_text lease)) }
{
    let mut room = Uuid::encode_buffer();
    lease_value(alloc, ask, lease_text(lease, &mut room))
}

fn list_whole(alloc: Global, cell: u16) -> Result<Value, AllocError>
    ensures { IfOk result (λ v. view v ≡ spec.list_data cell null) }
{
    json!(in alloc; { "after": null, "ask": "list", "cell": cell })
}

fn list_behind(alloc: Global, cell: u16, after: &str) -> Result<Value, AllocError>
    ensures { IfOk result (λ v. view v ≡ spec.list_data cell (string after.now)) }
{
    json!(in alloc; { "after": after, "ask": "list", "cell": cell })
}

fn list(alloc: Global, cell: u16, after: Option<LeaseId>) -> Result<Value, AllocError>
    requires { IsAfter after }
    ensures { IfOk result (λ v. view v ≡ spec.list_data cell (spec.after_data after)) }
{
    let Some(lease) = after else {
        return list_whole(alloc, cell);
    };
    let mut room = Uuid::encode_buffer();
    list_behind(alloc, cell, lease_text(lease, &mut room))
}

fn range(alloc: Global, cell: u16, number: u64) -> Result<Value, AllocError>
    ensures { IfOk result (λ v. view v ≡ spec.range_data cell number) }
{
    json!(in alloc; { "ask": "range", "cell": cell, "number": number })
}

fn claims(
    alloc: Global,
    cell: u16,
    bucket: Bucket,
    first: u64,
    last: u64,
    after: u64,
) -> Result<Value, AllocError>
    ensures { IfOk result (λ v. view v ≡ spec.claims_data cell (bucket_name bucket) first last after) }
{
    let bucket = bucket.name();
    json!(in alloc; { "after": after, "ask": "claims", "bucket": bucket, "cell": cell, "first": first, "last": last })
}

fn classify_first(alloc: Global) -> Result<Value, AllocError>
    ensures { IfOk result (λ v. view v ≡ spec.classify_data question.First) }
{
    json!(in alloc; { "ask": "classify", "by": "first" })
}

fn classify_cell(alloc: Global, id: u16) -> Result<Value, AllocError>
    ensures { IfOk result (λ v. view v ≡ spec.classify_data (question.Cell id)) }
{
    json!(in alloc; { "ask": "classify", "by": "cell", "cell": id })
}

// A question by a text: by `session` or by `path`.
fn classify_text(alloc: Global, by: &str, asked: &str) -> Result<Value, AllocError>
    ensures { IfOk result (λ v. view v ≡
        object (text (codes "ask") (codes "classify") (text (codes "by") by.now (text
        (codes "text") asked.now no_members)))) }
{
    json!(in alloc; { "ask": "classify", "by": by, "text": asked })
}

fn classify_claim(alloc: Global, key: &ClaimKey) -> Result<Value, AllocError>
    requires { IsWritableKey key.now }
    ensures { IfOk result (λ v. view v ≡ spec.classify_data (question.Claim key.now)) }
{
    let bucket = key.bucket.name();
    let value = text_of(&key.value);
    json!(in alloc; { "ask": "classify", "bucket": bucket, "by": "claim", "value": value })
}

fn classify(alloc: Global, question: &Question) -> Result<Value, AllocError>
    requires { IsWritableQuestion question.now }
    ensures { IfOk result (λ v. view v ≡ spec.classify_data question.now) }
{
    match question {
        Question::First => classify_first(alloc),
        Question::Cell { id } => classify_cell(alloc, *id),
        Question::Session { text } => classify_text(alloc, "session", text_of(text)),
        Question::Claim { key } => classify_claim(alloc, key),
        Question::Path { text } => classify_text(alloc, "path", text_of(text)),
    }
}

fn page(alloc: Global, cell: u16, path: &Text, named: bool) -> Result<Value, AllocError>
    requires { IsUtf8 path.now }
    ensures { IfOk result (λ v. view v ≡ spec.page_data cell path.now named) }
{
    let path = text_of(path);
    json!(in alloc; { "ask": "page", "cell": cell, "named": named, "path": path })
}

fn request_value(alloc: Global, request: &Request) -> Result<Value, AllocError>
    requires { IsWritableRequest request.now }
    ensures { IfOk result (λ v. view v ≡ spec.request_data request.now) }
{
    match request {
        Request::Begin { lease, ops } => begin(alloc, *lease, ops),
        Request::Commit { lease } => about_lease(alloc, "commit", *lease),
        Request::Rollback { lease } => about_lease(alloc, "rollback", *lease),
        Request::List { cell, after } => list(alloc, *cell, *after),
        Request::Range { cell, number } => range(alloc, *cell, *number),
        Request::Claims {
            cell,
            bucket,
            first,
            last,
            after,
        } => claims(alloc, *cell, *bucket, *first, *last, *after),
        Request::Classify { question } => classify(alloc, question),
        Request::Page { cell, path, named } => page(alloc, *cell, path, *named),
    }
}

/// The body of a request: the compact JSON object that `specs/RequestWriter` states. A request within
/// the bounds of `claim_types/specs/MessageBounds` is read from it again.
#[tactic(auto, unfolding(crate::specs::RequestWriter::request_text))]
pub fn write_request(alloc: Global, request: &Request) -> Result<Text, NoMemory>
    requires { IsWritableRequest request.now }
    ensures text { IfOk result (λ text. text ≡ spec.request_text request.now) }
    ensures reads_back { IfOk result (λ text. IsRequest request.now → request_of text ≡ Ok request.now) }
{
    let value = request_value(alloc, request)?;
    compact(alloc, &value)
}
