//! The body of an entry, part by part.
ghost use Rattle.std.specs.Prelude.{◌≡◌, ◌<◌, ◌∷◌, [], ◌++◌, length, IfOk, OnOk};
ghost use Rattle.std.specs.Int.{w64, to_be_bytes};
ghost use Rattle.std.specs.List.{All};
ghost use Rattle.claim_types.specs.Leases.{IsLease, lease_bytes};
ghost use Rattle.claim_types.specs.declared.entry.CellEntry.TheVariants.{RowGone};
ghost use Rattle.claim_types.specs.Bounds.{IsKey, IsCreate};
ghost use Rattle.claim_types.specs.EntryBounds.{AreEntryOperations, IsChange, IsServiceEntry, IsCellEntry};
ghost use Rattle.entry_codec.specs.Spelling as spell;
ghost use Rattle.entry_codec.specs.Spelling.{IsBody};

use crate::codes::{
    BEGUN, COMMITTED, CREATE, EPOCH, GIVEN, GOT, RECORDED, REMOVE, RENAME, ROLLED_BACK, ROW_GONE,
    SETTLED,
};
use claim_types::{
    CellEntry, Change, ClaimKey, Create, How, LeaseId, NoMemory, Operations, Origin, Range,
    ServiceEntry, Subject, Text,
};
use std::alloc::Global;

// What most entries need at most, so that the buffer seldom grows.
const ROOM_BYTES: usize = 256;

fn push_number(out: &mut Vec<u8>, number: u64) -> Result<(), NoMemory>
    ensures { OnOk result (out.new.items ≡ out.old.items ++ to_be_bytes w64 number) }
{
    out.extend_from_slice(&number.to_be_bytes())?;
    Ok(())
}

fn push_text(out: &mut Vec<u8>, text: &[u8]) -> Result<(), NoMemory>
    requires { length text.now < 256 }
    ensures { OnOk result (out.new.items ≡ out.old.items ++ spell.text_bytes text.now) }
{
    out.push(text.len() as u8)?;
    out.extend_from_slice(text)?;
    Ok(())
}

fn push_key(out: &mut Vec<u8>, key: &ClaimKey) -> Result<(), NoMemory>
    requires { IsKey key.now }
    ensures { OnOk result (out.new.items ≡ out.old.items ++ spell.key_bytes key.now) }
{
    out.push(key.bucket.number())?;
    push_text(out, key.value.as_slice())
}

fn push_subject(out: &mut Vec<u8>, subject: Subject) -> Result<(), NoMemory>
    ensures { OnOk result (out.new.items ≡ out.old.items ++ spell.subject_bytes subject) }
{
    out.push(subject.kind.number())?;
    push_number(out, subject.id)
}

fn push_origin(out: &mut Vec<u8>, origin: Origin) -> Result<(), NoMemory>
    ensures { OnOk result (out.new.items ≡ out.old.items ++ spell.origin_bytes origin) }
{
    out.push(origin.table.number())?;
    push_number(out, origin.row)
}

fn push_create(out: &mut Vec<u8>, create: &Create) -> Result<(), NoMemory>
    requires { IsCreate create.now }
    ensures { OnOk result (out.new.items ≡ out.old.items ++ spell.create_bytes create.now) }
{
    push_key(out, &create.key)?;
    push_subject(out, create.subject)?;
    push_origin(out, create.origin)
}

fn push_creates(out: &mut Vec<u8>, creates: &[Create]) -> Result<(), NoMemory>
    requires few { length creates.now < 256 }
    requires each { All IsCreate creates.now }
    ensures { OnOk result (out.new.items ≡ out.old.items ++ spell.list_bytes spell.create_bytes creates.now) }
{
    out.push(creates.len() as u8)?;
    for create in creates {
        push_create(out, create)?;
    }
    Ok(())
}

fn push_keys(out: &mut Vec<u8>, keys: &[ClaimKey]) -> Result<(), NoMemory>
    requires few { length keys.now < 256 }
    requires each { All IsKey keys.now }
    ensures { OnOk result (out.new.items ≡ out.old.items ++ spell.list_bytes spell.key_bytes keys.now) }
{
    out.push(keys.len() as u8)?;
    for key in keys {
        push_key(out, key)?;
    }
    Ok(())
}

fn push_operations(out: &mut Vec<u8>, ops: &Operations) -> Result<(), NoMemory>
    requires { AreEntryOperations ops.now }
    ensures { OnOk result (out.new.items ≡ out.old.items ++ spell.operations_bytes ops.now) }
{
    push_creates(out, ops.creates.as_slice())?;
    push_keys(out, ops.destroys.as_slice())
}

fn push_lease(out: &mut Vec<u8>, lease: LeaseId) -> Result<(), NoMemory>
    requires { IsLease lease }
    ensures { OnOk result (out.new.items ≡ out.old.items ++ lease_bytes lease) }
{
    out.extend_from_slice(lease.to_uuid().as_bytes())?;
    Ok(())
}

fn push_change(out: &mut Vec<u8>, change: &Change) -> Result<(), NoMemory>
    requires { IsChange change.now }
    ensures { OnOk result (out.new.items ≡ out.old.items ++ spell.change_bytes change.now) }
{
    match change {
        Change::Create { kind, parent, name } => {
            out.push(CREATE)?;
            out.push(kind.number())?;
            push_number(out, *parent)?;
            push_text(out, name.as_slice())
        }
        Change::Rename { id, name } => {
            out.push(RENAME)?;
            push_number(out, *id)?;
            push_text(out, name.as_slice())
        }
        Change::Remove { id } => {
            out.push(REMOVE)?;
            push_number(out, *id)
        }
    }
}

fn push_ends(out: &mut Vec<u8>, low: u64, high: u64) -> Result<(), NoMemory>
    ensures { OnOk result (out.new.items ≡ out.old.items ++ spell.ends_bytes low high) }
{
    push_number(out, low)?;
    push_number(out, high)
}

fn push_range(out: &mut Vec<u8>, range: &Range) -> Result<(), NoMemory>
    ensures { OnOk result (out.new.items ≡ out.old.items ++ spell.range_bytes range.now) }
{
    out.extend_from_slice(&range.cell.to_be_bytes())?;
    push_number(out, range.number)?;
    push_ends(out, range.low, range.high)
}

fn how_code(how: How) -> u8
    ensures { result ≡ spell.how_number how }
{
    match how {
        How::Committed => COMMITTED,
        How::RolledBack => ROLLED_BACK,
    }
}

#[tactic(auto, unfolding(crate::specs::Spelling::service_entry_bytes))]
fn push_service_entry(out: &mut Vec<u8>, entry: &ServiceEntry) -> Result<(), NoMemory>
    requires { IsServiceEntry entry.now }
    ensures { OnOk result (out.new.items ≡ out.old.items ++ spell.service_entry_bytes entry.now) }
{
    match entry {
        ServiceEntry::Begun { lease, ops } => {
            out.push(BEGUN)?;
            push_lease(out, *lease)?;
            push_operations(out, ops)
        }
        ServiceEntry::Settled { lease, how } => {
            out.push(SETTLED)?;
            push_lease(out, *lease)?;
            out.push(how_code(*how))?;
            Ok(())
        }
        ServiceEntry::Given { range } => {
            out.push(GIVEN)?;
            push_range(out, range)
        }
    }
}

#[tactic(auto, unfolding(crate::specs::Spelling::cell_entry_bytes))]
fn push_cell_entry(out: &mut Vec<u8>, entry: &CellEntry) -> Result<(), NoMemory>
    requires { IsCellEntry entry.now }
    ensures { OnOk result (out.new.items ≡ out.old.items ++ spell.cell_entry_bytes entry.now) }
{
    match entry {
        CellEntry::Epoch { epoch } => {
            out.push(EPOCH)?;
            out.extend_from_slice(&epoch.to_be_bytes())?;
            Ok(())
        }
        CellEntry::Recorded { lease, change, ops } => {
            out.push(RECORDED)?;
            push_lease(out, *lease)?;
            push_change(out, change)?;
            push_operations(out, ops)
        }
        CellEntry::RowGone { lease } => {
            out.push(ROW_GONE)?;
            push_lease(out, *lease)
        }
        CellEntry::Got { number, low, high } => {
            out.push(GOT)?;
            push_number(out, *number)?;
            push_ends(out, *low, *high)
        }
    }
}

/// The body of an entry of the service's journal. Its form is in `specs/Spelling`.
pub fn write_service(alloc: Global, entry: &ServiceEntry) -> Result<Text, NoMemory>
    requires { IsServiceEntry entry.now }
    ensures body { IfOk result (λ body. body ≡ spell.service_entry_bytes entry.now) }
    ensures length { IfOk result IsBody }
{
    let mut out = Vec::with_capacity(alloc, ROOM_BYTES)?;
    push_service_entry(&mut out, entry)?;
    Ok(Text::from_vec(out))
}

/// The body of an entry of a cell's journal. Its form is in `specs/Spelling`.
pub fn write_cell(alloc: Global, entry: &CellEntry) -> Result<Text, NoMemory>
    requires { IsCellEntry entry.now }
    ensures body { IfOk result (λ body. body ≡ spell.cell_entry_bytes entry.now) }
    ensures length { IfOk result IsBody }
{
    let mut out = Vec::with_capacity(alloc, ROOM_BYTES)?;
    push_cell_entry(&mut out, entry)?;
    Ok(Text::from_vec(out))
}

/// The body of a lease's [`CellEntry::RowGone`], which takes no memory.
#[tactic(auto, unfolding(crate::specs::Spelling::cell_entry_bytes))]
pub fn write_row_gone(lease: LeaseId) -> [u8; 17]
    requires { IsLease lease }
    ensures { result ≡ spell.cell_entry_bytes (RowGone lease) }
{
    let [a, b, c, d, e, f, g, h, i, j, k, l, m, n, o, p] = lease.to_uuid().into_bytes();
    [ROW_GONE, a, b, c, d, e, f, g, h, i, j, k, l, m, n, o, p]
}
