//! Replies as they are written, token by token.
ghost use Rattle.std.specs.Prelude.{◌≡◌, IfOk, OnOk, Ok, IsUtf8, codes, map};
ghost use Rattle.std.specs.List.{All};
ghost use Rattle.serde_json.specs.Data.{null, number, unsigned, object, array, no_members};
ghost use Rattle.serde_json.specs.View.{items_of};
ghost use Rattle.claim_types.specs.declared.question.Question.TheVariants as question;
ghost use Rattle.claim_types.specs.Leases.{IsLease, lease_text};
ghost use Rattle.claim_types.specs.Names.{bucket_name};
ghost use Rattle.claim_types.specs.Writable.{AreWritableClaims, AreWritableLeases, IsWritableDenial, IsWritableKey, IsWritableQuestion, IsWritableResult, IsWritableReply};
ghost use Rattle.claim_types.specs.MessageBounds.{IsReply};
ghost use Rattle.message_json.specs.Fields.{AddsValue};
ghost use Rattle.message_json.specs.ReplyReader.{reply_of};
ghost use Rattle.message_json.specs.ReplyWriter as spec;
ghost use Rattle.message_json.specs.Texts.{text, count};

use crate::fields::{Field, members, object};
use crate::texts::{lease_text, text_of};
use claim_types::{
    BegunResult, Bucket, ClaimItem, ClaimKey, ClaimPage, Class, CommittedResult, Denial, How,
    LeaseId, LeasePage, NoMemory, Question, RangedResult, Reply, RolledBackResult, Text,
};
use json::Writer;
use std::alloc::{AllocError, Global};
use uuid::Uuid;

// The room for a body at first, in bytes, which is enough for all but pages.
const BODY_ROOM: usize = 256;

fn how_text(how: How) -> &'static str
    ensures { result.now ≡ spec.how_text how }
{
    match how {
        How::Committed => "committed",
        How::RolledBack => "rolled_back",
    }
}

fn committed_text(outcome: CommittedResult) -> &'static str
    ensures { result.now ≡ spec.committed_text outcome }
{
    match outcome {
        CommittedResult::Good => "ok",
        CommittedResult::Unknown => "unknown",
        CommittedResult::WasRolledBack => "was_rolled_back",
    }
}

fn rolled_back_text(outcome: RolledBackResult) -> &'static str
    ensures { result.now ≡ spec.rolled_back_text outcome }
{
    match outcome {
        RolledBackResult::Good => "ok",
        RolledBackResult::WasCommitted => "was_committed",
    }
}

fn plain(out: &mut Writer, lease: &str, reply: &str, outcome: &str) -> Result<(), AllocError>
    ensures { OnOk result (AddsValue out.old out.new (spec.plain_data lease.now reply.now outcome.now)) }
{
    object(
        out,
        &[
            ("lease", Field::Text(lease)),
            ("reply", Field::Text(reply)),
            ("result", Field::Text(outcome)),
        ],
    )
}

fn settled<'x>(out: &mut Writer, lease: &'x str, how: &'x str) -> Result<(), AllocError>
    ensures { OnOk result (AddsValue out.old out.new (spec.settled_data lease.now how.now)) }
{
    object(
        out,
        &[
            ("how", Field::Text(how)),
            ("lease", Field::Text(lease)),
            ("reply", Field::Text("begun")),
            ("result", Field::Text("settled")),
        ],
    )
}

fn count(out: &mut Writer, lease: &str, n: u64) -> Result<(), AllocError>
    ensures { OnOk result (AddsValue out.old out.new (spec.count_data lease.now n)) }
{
    object(
        out,
        &[
            ("lease", Field::Text(lease)),
            ("n", Field::Count(n)),
            ("reply", Field::Text("begun")),
            ("result", Field::Text("count")),
        ],
    )
}

fn foreign(out: &mut Writer, lease: &str, id: u64) -> Result<(), AllocError>
    ensures { OnOk result (AddsValue out.old out.new (spec.foreign_data lease.now id)) }
{
    object(
        out,
        &[
            ("id", Field::Count(id)),
            ("lease", Field::Text(lease)),
            ("reply", Field::Text("begun")),
            ("result", Field::Text("foreign_id")),
        ],
    )
}

fn keyed<'x>(
    out: &mut Writer,
    lease: &'x str,
    outcome: &'x str,
    key: &'x ClaimKey,
) -> Result<(), AllocError>
    requires { IsWritableKey key.now }
    ensures { OnOk result (AddsValue out.old out.new (spec.keyed_data lease.now outcome.now
        (bucket_name key.now.bucket) key.now.value)) }
{
    let bucket = key.bucket.name();
    let value = text_of(&key.value);
    object(
        out,
        &[
            ("bucket", Field::Text(bucket)),
            ("lease", Field::Text(lease)),
            ("reply", Field::Text("begun")),
            ("result", Field::Text(outcome)),
            ("value", Field::Text(value)),
        ],
    )
}

fn owned<'x>(
    out: &mut Writer,
    lease: &'x str,
    key: &'x ClaimKey,
    owner: u16,
) -> Result<(), AllocError>
    requires { IsWritableKey key.now }
    ensures { OnOk result (AddsValue out.old out.new (spec.owned_data lease.now
        (bucket_name key.now.bucket) key.now.value owner)) }
{
    let bucket = key.bucket.name();
    let value = text_of(&key.value);
    object(
        out,
        &[
            ("bucket", Field::Text(bucket)),
            ("lease", Field::Text(lease)),
            ("owner", Field::Count(owner as u64)),
            ("reply", Field::Text("begun")),
            ("result", Field::Text("owned")),
            ("value", Field::Text(value)),
        ],
    )
}

fn leased<'x>(
    out: &mut Writer,
    lease: &'x str,
    key: &'x ClaimKey,
    by: &'x str,
) -> Result<(), AllocError>
    requires { IsWritableKey key.now }
    ensures { OnOk result (AddsValue out.old out.new (spec.leased_data lease.now
        (bucket_name key.now.bucket) key.now.value by.now)) }
{
    let bucket = key.bucket.name();
    let value = text_of(&key.value);
    object(
        out,
        &[
            ("bucket", Field::Text(bucket)),
            ("by", Field::Text(by)),
            ("lease", Field::Text(lease)),
            ("reply", Field::Text("begun")),
            ("result", Field::Text("leased")),
            ("value", Field::Text(value)),
        ],
    )
}

fn leased_by(out: &mut Writer, lease: &str, key: &ClaimKey, by: LeaseId) -> Result<(), AllocError>
    requires text { IsWritableKey key.now }
    requires bounds { IsLease by }
    ensures { OnOk result (AddsValue out.old out.new (spec.leased_data lease.now
        (bucket_name key.now.bucket) key.now.value (lease_text by))) }
{
    let mut room = Uuid::encode_buffer();
    leased(out, lease, key, lease_text(by, &mut room))
}

fn denied(out: &mut Writer, lease: &str, denial: &Denial) -> Result<(), AllocError>
    requires { IsWritableDenial denial.now }
    ensures { OnOk result (AddsValue out.old out.new (spec.denied_data lease.now denial.now)) }
{
    match denial {
        Denial::Settled { how } => settled(out, lease, how_text(*how)),
        Denial::OtherOperations => plain(out, lease, "begun", "other_operations"),
        Denial::NoneOrTooMany { n } => count(out, lease, *n),
        Denial::Twice { key } => keyed(out, lease, "twice", key),
        Denial::ForeignId { id } => foreign(out, lease, *id),
        Denial::TooManyOpen => plain(out, lease, "begun", "too_many_open"),
        Denial::Owned { key, cell } => owned(out, lease, key, *cell),
        Denial::Leased { key, lease: by } => leased_by(out, lease, key, *by),
        Denial::NotOwned { key } => keyed(out, lease, "not_owned", key),
    }
}

fn begun(out: &mut Writer, lease: &str, outcome: &BegunResult) -> Result<(), AllocError>
    requires { IsWritableResult outcome.now }
    ensures { OnOk result (AddsValue out.old out.new (spec.begun_data lease.now outcome.now)) }
{
    match outcome {
        BegunResult::Good => plain(out, lease, "begun", "ok"),
        BegunResult::Denied(denial) => denied(out, lease, denial),
    }
}

fn begun_reply(out: &mut Writer, lease: LeaseId, outcome: &BegunResult) -> Result<(), AllocError>
    requires bounds { IsLease lease }
    requires texts { IsWritableResult outcome.now }
    ensures { OnOk result (AddsValue out.old out.new (spec.begun_data (lease_text lease) outcome.now)) }
{
    let mut room = Uuid::encode_buffer();
    begun(out, lease_text(lease, &mut room), outcome)
}

fn about_lease(
    out: &mut Writer,
    lease: LeaseId,
    reply: &str,
    outcome: &str,
) -> Result<(), AllocError>
    requires { IsLease lease }
    ensures { OnOk result (AddsValue out.old out.new (spec.plain_data (lease_text lease) reply.now outcome.now)) }
{
    let mut room = Uuid::encode_buffer();
    plain(out, lease_text(lease, &mut room), reply, outcome)
}

fn lease_token(out: &mut Writer, lease: LeaseId) -> Result<(), AllocError>
    requires { IsLease lease }
    ensures { OnOk result (AddsValue out.old out.new (spec.lease_item lease)) }
{
    let mut room = Uuid::encode_buffer();
    out.string(lease_text(lease, &mut room))
}

fn leases(out: &mut Writer, leases: &[LeaseId]) -> Result<(), AllocError>
    requires { All IsLease leases.now }
    ensures { OnOk result (AddsValue out.old out.new (array (items_of (map spec.lease_item leases.now)))) }
{
    out.begin_array()?;
    for lease in leases {
        lease_token(out, *lease)?;
    }
    out.end_array()
}

fn leases_reply(out: &mut Writer, cell: u16, page: &LeasePage) -> Result<(), AllocError>
    requires { AreWritableLeases page.now.leases }
    ensures { OnOk result (AddsValue out.old out.new (spec.leases_data cell (items_of
        (map spec.lease_item page.now.leases)) page.now.more)) }
{
    out.begin_object()?;
    members(out, &[("cell", Field::Count(cell as u64))])?;
    out.key("leases")?;
    leases(out, page.leases.as_slice())?;
    members(
        out,
        &[
            ("more", Field::Flag(page.more)),
            ("reply", Field::Text("leases")),
        ],
    )?;
    out.end_object()
}

fn given(out: &mut Writer, cell: u16, number: u64, low: u64, high: u64) -> Result<(), AllocError>
    ensures { OnOk result (AddsValue out.old out.new (spec.given_data cell number low high)) }
{
    object(
        out,
        &[
            ("cell", Field::Count(cell as u64)),
            ("high", Field::Count(high)),
            ("low", Field::Count(low)),
            ("number", Field::Count(number)),
            ("reply", Field::Text("ranged")),
            ("result", Field::Text("ok")),
        ],
    )
}

fn unknown_cell(out: &mut Writer, cell: u16, number: u64) -> Result<(), AllocError>
    ensures { OnOk result (AddsValue out.old out.new (spec.unknown_data cell number)) }
{
    object(
        out,
        &[
            ("cell", Field::Count(cell as u64)),
            ("number", Field::Count(number)),
            ("reply", Field::Text("ranged")),
            ("result", Field::Text("unknown_cell")),
        ],
    )
}

fn too_far(out: &mut Writer, cell: u16, number: u64, next: u64) -> Result<(), AllocError>
    ensures { OnOk result (AddsValue out.old out.new (spec.too_far_data cell number next)) }
{
    object(
        out,
        &[
            ("cell", Field::Count(cell as u64)),
            ("next", Field::Count(next)),
            ("number", Field::Count(number)),
            ("reply", Field::Text("ranged")),
            ("result", Field::Text("too_far")),
        ],
    )
}

fn exhausted(out: &mut Writer, cell: u16, number: u64, last: u64) -> Result<(), AllocError>
    ensures { OnOk result (AddsValue out.old out.new (spec.exhausted_data cell number last)) }
{
    object(
        out,
        &[
            ("cell", Field::Count(cell as u64)),
            ("last", Field::Count(last)),
            ("number", Field::Count(number)),
            ("reply", Field::Text("ranged")),
            ("result", Field::Text("exhausted")),
        ],
    )
}

fn ranged_reply(
    out: &mut Writer,
    cell: u16,
    number: u64,
    outcome: RangedResult,
) -> Result<(), AllocError>
    ensures { OnOk result (AddsValue out.old out.new (spec.ranged_data cell number outcome)) }
{
    match outcome {
        RangedResult::Good { low, high } => given(out, cell, number, low, high),
        RangedResult::UnknownCell => unknown_cell(out, cell, number),
        RangedResult::TooFar { next } => too_far(out, cell, number, next),
        RangedResult::Exhausted { last } => exhausted(out, cell, number, last),
    }
}

fn claim(out: &mut Writer, claim: &ClaimItem) -> Result<(), AllocError>
    requires { IsWritableKey claim.now.key }
    ensures { OnOk result (AddsValue out.old out.new (spec.claim_item claim.now)) }
{
    let value = text_of(&claim.key.value);
    let subject = claim.subject.kind.name();
    let id = claim.subject.id;
    let table = claim.origin.table.number();
    let row = claim.origin.row;
    object(
        out,
        &[
            ("row", Field::Count(row)),
            ("subject", Field::Text(subject)),
            ("subject_id", Field::Count(id)),
            ("table", Field::Count(table as u64)),
            ("value", Field::Text(value)),
        ],
    )
}

fn claims(out: &mut Writer, claims: &[ClaimItem]) -> Result<(), AllocError>
    requires { AreWritableClaims claims.now }
    ensures { OnOk result (AddsValue out.old out.new (array (items_of (map spec.claim_item claims.now)))) }
{
    out.begin_array()?;
    for item in claims {
        claim(out, item)?;
    }
    out.end_array()
}

// What a request for claims names.
#[derive(Clone, Copy)]
struct Asked {
    cell: u16,
    bucket: Bucket,
    first: u64,
    last: u64,
    after: u64,
}

fn claims_reply(out: &mut Writer, asked: Asked, page: &ClaimPage) -> Result<(), AllocError>
    requires { AreWritableClaims page.now.items }
    ensures { OnOk result (AddsValue out.old out.new (spec.claims_page_data asked.cell
        (bucket_name asked.bucket) asked.first asked.last asked.after (items_of
        (map spec.claim_item page.now.items)) page.now.more)) }
{
    let Asked {
        cell,
        bucket,
        first,
        last,
        after,
    } = asked;
    let name = bucket.name();
    out.begin_object()?;
    members(
        out,
        &[
            ("after", Field::Count(after)),
            ("bucket", Field::Text(name)),
            ("cell", Field::Count(cell as u64)),
            ("first", Field::Count(first)),
        ],
    )?;
    out.key("items")?;
    claims(out, page.items.as_slice())?;
    members(
        out,
        &[
            ("last", Field::Count(last)),
            ("more", Field::Flag(page.more)),
            ("reply", Field::Text("claims")),
        ],
    )?;
    out.end_object()
}

fn answered_first(out: &mut Writer, answer: u16) -> Result<(), AllocError>
    ensures { OnOk result (AddsValue out.old out.new (spec.answered_data question.First answer)) }
{
    object(
        out,
        &[
            ("answer", Field::Count(answer as u64)),
            ("by", Field::Text("first")),
            ("reply", Field::Text("classified")),
            ("result", Field::Text("cell")),
        ],
    )
}

fn answered_cell(out: &mut Writer, id: u16, answer: u16) -> Result<(), AllocError>
    ensures { OnOk result (AddsValue out.old out.new (spec.answered_data (question.Cell id) answer)) }
{
    object(
        out,
        &[
            ("answer", Field::Count(answer as u64)),
            ("by", Field::Text("cell")),
            ("cell", Field::Count(id as u64)),
            ("reply", Field::Text("classified")),
            ("result", Field::Text("cell")),
        ],
    )
}

// The answer to a question by a text: by `session` or by `path`.
fn answered_text<'x>(
    out: &mut Writer,
    by: &'x str,
    asked: &'x str,
    answer: u16,
) -> Result<(), AllocError>
    ensures { OnOk result (AddsValue out.old out.new (object (count (codes "answer") answer (text
        (codes "by") by.now (text (codes "reply") (codes "classified") (text (codes "result") (codes "cell")
        (text (codes "text") asked.now no_members))))))) }
{
    object(
        out,
        &[
            ("answer", Field::Count(answer as u64)),
            ("by", Field::Text(by)),
            ("reply", Field::Text("classified")),
            ("result", Field::Text("cell")),
            ("text", Field::Text(asked)),
        ],
    )
}

fn answered_claim(out: &mut Writer, key: &ClaimKey, answer: u16) -> Result<(), AllocError>
    requires { IsWritableKey key.now }
    ensures { OnOk result (AddsValue out.old out.new (spec.answered_data (question.Claim key.now) answer)) }
{
    let bucket = key.bucket.name();
    let value = text_of(&key.value);
    object(
        out,
        &[
            ("answer", Field::Count(answer as u64)),
            ("bucket", Field::Text(bucket)),
            ("by", Field::Text("claim")),
            ("reply", Field::Text("classified")),
            ("result", Field::Text("cell")),
            ("value", Field::Text(value)),
        ],
    )
}

fn answered(out: &mut Writer, question: &Question, answer: u16) -> Result<(), AllocError>
    requires { IsWritableQuestion question.now }
    ensures { OnOk result (AddsValue out.old out.new (spec.answered_data question.now answer)) }
{
    match question {
        Question::First => answered_first(out, answer),
        Question::Cell { id } => answered_cell(out, *id, answer),
        Question::Session { text } => answered_text(out, "session", text_of(text), answer),
        Question::Claim { key } => answered_claim(out, key, answer),
        Question::Path { text } => answered_text(out, "path", text_of(text), answer),
    }
}

fn unanswered_first(out: &mut Writer, word: &str) -> Result<(), AllocError>
    ensures { OnOk result (AddsValue out.old out.new (spec.unanswered_data question.First word.now)) }
{
    object(
        out,
        &[
            ("by", Field::Text("first")),
            ("reply", Field::Text("classified")),
            ("result", Field::Text(word)),
        ],
    )
}

fn unanswered_cell(out: &mut Writer, id: u16, word: &str) -> Result<(), AllocError>
    ensures { OnOk result (AddsValue out.old out.new (spec.unanswered_data (question.Cell id) word.now)) }
{
    object(
        out,
        &[
            ("by", Field::Text("cell")),
            ("cell", Field::Count(id as u64)),
            ("reply", Field::Text("classified")),
            ("result", Field::Text(word)),
        ],
    )
}

fn unanswered_text<'x>(
    out: &mut Writer,
    by: &'x str,
    asked: &'x str,
    word: &'x str,
) -> Result<(), AllocError>
    ensures { OnOk result (AddsValue out.old out.new (object (text (codes "by") by.now (text (codes "reply")
        (codes "classified") (text (codes "result") word.now (text (codes "text") asked.now no_members)))))) }
{
    object(
        out,
        &[
            ("by", Field::Text(by)),
            ("reply", Field::Text("classified")),
            ("result", Field::Text(word)),
            ("text", Field::Text(asked)),
        ],
    )
}

fn unanswered_claim<'x>(
    out: &mut Writer,
    key: &'x ClaimKey,
    word: &'x str,
) -> Result<(), AllocError>
    requires { IsWritableKey key.now }
    ensures { OnOk result (AddsValue out.old out.new (spec.unanswered_data (question.Claim key.now) word.now)) }
{
    let bucket = key.bucket.name();
    let value = text_of(&key.value);
    object(
        out,
        &[
            ("bucket", Field::Text(bucket)),
            ("by", Field::Text("claim")),
            ("reply", Field::Text("classified")),
            ("result", Field::Text(word)),
            ("value", Field::Text(value)),
        ],
    )
}

fn unanswered(out: &mut Writer, question: &Question, word: &str) -> Result<(), AllocError>
    requires { IsWritableQuestion question.now }
    ensures { OnOk result (AddsValue out.old out.new (spec.unanswered_data question.now word.now)) }
{
    match question {
        Question::First => unanswered_first(out, word),
        Question::Cell { id } => unanswered_cell(out, *id, word),
        Question::Session { text } => unanswered_text(out, "session", text_of(text), word),
        Question::Claim { key } => unanswered_claim(out, key, word),
        Question::Path { text } => unanswered_text(out, "path", text_of(text), word),
    }
}

fn classified(out: &mut Writer, question: &Question, class: Class) -> Result<(), AllocError>
    requires { IsWritableQuestion question.now }
    ensures { OnOk result (AddsValue out.old out.new (spec.classified_data question.now class)) }
{
    match class {
        Class::Cell { id } => answered(out, question, id),
        Class::NotFound => unanswered(out, question, "not_found"),
        Class::UnknownCell => unanswered(out, question, "unknown_cell"),
    }
}

fn page_without(out: &mut Writer, cell: u16, path: &str, named: bool) -> Result<(), AllocError>
    ensures { OnOk result (AddsValue out.old out.new (spec.page_data cell path.now named null)) }
{
    object(
        out,
        &[
            ("cell", Field::Count(cell as u64)),
            ("found", Field::Null),
            ("named", Field::Flag(named)),
            ("path", Field::Text(path)),
            ("reply", Field::Text("page")),
        ],
    )
}

fn page_with(
    out: &mut Writer,
    cell: u16,
    path: &str,
    named: bool,
    id: u64,
) -> Result<(), AllocError>
    ensures { OnOk result (AddsValue out.old out.new (spec.page_data cell path.now named (number (unsigned id)))) }
{
    object(
        out,
        &[
            ("cell", Field::Count(cell as u64)),
            ("found", Field::Count(id)),
            ("named", Field::Flag(named)),
            ("path", Field::Text(path)),
            ("reply", Field::Text("page")),
        ],
    )
}

fn page(
    out: &mut Writer,
    cell: u16,
    path: &Text,
    named: bool,
    found: Option<u64>,
) -> Result<(), AllocError>
    requires { IsUtf8 path.now }
    ensures { OnOk result (AddsValue out.old out.new (spec.page_data cell path.now named (spec.found_data found))) }
{
    let path = text_of(path);
    match found {
        None => page_without(out, cell, path, named),
        Some(id) => page_with(out, cell, path, named, id),
    }
}

fn no_cell(out: &mut Writer, cell: u16) -> Result<(), AllocError>
    ensures { OnOk result (AddsValue out.old out.new (spec.no_cell_data cell)) }
{
    object(
        out,
        &[
            ("cell", Field::Count(cell as u64)),
            ("reply", Field::Text("no_cell")),
        ],
    )
}

fn reply_tokens(out: &mut Writer, reply: &Reply) -> Result<(), AllocError>
    requires { IsWritableReply reply.now }
    ensures { OnOk result (AddsValue out.old out.new (spec.reply_data reply.now)) }
{
    match reply {
        Reply::Begun { lease, result } => begun_reply(out, *lease, result),
        Reply::Committed { lease, result } => {
            about_lease(out, *lease, "committed", committed_text(*result))
        }
        Reply::RolledBack { lease, result } => {
            about_lease(out, *lease, "rolled_back", rolled_back_text(*result))
        }
        Reply::Leases { cell, page } => leases_reply(out, *cell, page),
        Reply::Ranged {
            cell,
            number,
            result,
        } => ranged_reply(out, *cell, *number, *result),
        Reply::Claims {
            cell,
            bucket,
            first,
            last,
            after,
            page,
        } => {
            let asked = Asked {
                cell: *cell,
                bucket: *bucket,
                first: *first,
                last: *last,
                after: *after,
            };
            claims_reply(out, asked, page)
        }
        Reply::Classified { question, class } => classified(out, question, *class),
        Reply::Page {
            cell,
            path,
            named,
            found,
        } => page(out, *cell, path, *named, *found),
        Reply::NoCell { cell } => no_cell(out, *cell),
    }
}

/// The body of a reply: the compact JSON object that `specs/ReplyWriter` states. A reply within the bounds
/// of `claim_types/specs/MessageBounds` is read from it again.
#[tactic(auto, unfolding(crate::specs::ReplyWriter::reply_text))]
pub fn write_reply(alloc: Global, reply: &Reply) -> Result<Text, NoMemory>
    requires { IsWritableReply reply.now }
    ensures text { IfOk result (λ text. text ≡ spec.reply_text reply.now) }
    ensures reads_back { IfOk result (λ text. IsReply reply.now → reply_of text ≡ Ok reply.now) }
{
    let mut out = Writer::new(Vec::with_capacity(alloc, BODY_ROOM)?);
    reply_tokens(&mut out, reply)?;
    Ok(Text::from_vec(out.into_inner()))
}
