//! Whole entries, read from a body.
ghost use Rattle.std.specs.Prelude.{◌≡◌, IfOk, IfSome, IfNone, Some};
ghost use Rattle.claim_types.specs.declared.entry.CellEntry.{CellEntry};
ghost use Rattle.claim_types.specs.declared.entry.ServiceEntry.{ServiceEntry};
ghost use Rattle.claim_types.specs.EntryBounds.{IsServiceEntry, IsCellEntry};
ghost use Rattle.entry_codec.specs.Reading as reading;
ghost use Rattle.entry_codec.specs.Reading.{Gives};
ghost use Rattle.entry_codec.specs.Spelling.{service_entry_bytes, cell_entry_bytes};
ghost use Rattle.entry_codec.specs.Bodies.{IsServiceBody, IsCellBody, IsNoServiceBody, IsNoCellBody, FindsService, FindsCell};

use crate::codes::{BEGUN, CREATE, EPOCH, GIVEN, GOT, RECORDED, REMOVE, RENAME, ROW_GONE, SETTLED};
use crate::operations::operations_at;
use crate::parts::{
    byte_at, ends_at, epoch_at, how_at, identifier_at, kind_at, lease_at, name_at, parent_at,
    range_at, range_number_at,
};
use crate::unread::Unread;
use claim_types::{CellEntry, Change, NoMemory, ServiceEntry};
use std::alloc::Global;

#[tactic(auto, unfolding(crate::specs::Reading::new_record_at))]
fn new_record_at(alloc: Global, bytes: &[u8]) -> Result<(Change, &[u8]), Unread>
    ensures { Gives (λ x. (x.0, x.1.now)) result (reading.new_record_at bytes.now) }
{
    let (kind, rest) = kind_at(bytes)?;
    let (parent, rest) = parent_at(rest)?;
    let (name, rest) = name_at(alloc, rest)?;
    Ok((Change::Create { kind, parent, name }, rest))
}

#[tactic(auto, unfolding(crate::specs::Reading::rename_at))]
fn rename_at(alloc: Global, bytes: &[u8]) -> Result<(Change, &[u8]), Unread>
    ensures { Gives (λ x. (x.0, x.1.now)) result (reading.rename_at bytes.now) }
{
    let (id, rest) = identifier_at(bytes)?;
    let (name, rest) = name_at(alloc, rest)?;
    Ok((Change::Rename { id, name }, rest))
}

#[tactic(auto, unfolding(crate::specs::Reading::remove_at))]
fn remove_at(bytes: &[u8]) -> Result<(Change, &[u8]), Unread>
    ensures { Gives (λ x. (x.0, x.1.now)) result (reading.remove_at bytes.now) }
{
    let (id, rest) = identifier_at(bytes)?;
    Ok((Change::Remove { id }, rest))
}

#[tactic(auto, unfolding(crate::specs::Reading::change_at))]
fn change_at(alloc: Global, bytes: &[u8]) -> Result<(Change, &[u8]), Unread>
    ensures { Gives (λ x. (x.0, x.1.now)) result (reading.change_at bytes.now) }
{
    let (first, rest) = byte_at(bytes)?;
    match first {
        CREATE => new_record_at(alloc, rest),
        RENAME => rename_at(alloc, rest),
        REMOVE => remove_at(rest),
        _ => Err(Unread::OutsideGrammar),
    }
}

#[tactic(auto, unfolding(crate::specs::Reading::begun_at))]
fn begun_at(alloc: Global, bytes: &[u8]) -> Result<(ServiceEntry, &[u8]), Unread>
    ensures { Gives (λ x. (x.0, x.1.now)) result (reading.begun_at bytes.now) }
{
    let (lease, rest) = lease_at(bytes)?;
    let (ops, rest) = operations_at(alloc, rest)?;
    Ok((ServiceEntry::Begun { lease, ops }, rest))
}

#[tactic(auto, unfolding(crate::specs::Reading::settled_at))]
fn settled_at(bytes: &[u8]) -> Result<(ServiceEntry, &[u8]), Unread>
    ensures { Gives (λ x. (x.0, x.1.now)) result (reading.settled_at bytes.now) }
{
    let (lease, rest) = lease_at(bytes)?;
    let (how, rest) = how_at(rest)?;
    Ok((ServiceEntry::Settled { lease, how }, rest))
}

#[tactic(auto, unfolding(crate::specs::Reading::given_at))]
fn given_at(bytes: &[u8]) -> Result<(ServiceEntry, &[u8]), Unread>
    ensures { Gives (λ x. (x.0, x.1.now)) result (reading.given_at bytes.now) }
{
    let (range, rest) = range_at(bytes)?;
    Ok((ServiceEntry::Given { range }, rest))
}

#[tactic(auto, unfolding(crate::specs::Reading::service_entry_at))]
fn service_entry_at(alloc: Global, bytes: &[u8]) -> Result<(ServiceEntry, &[u8]), Unread>
    ensures { Gives (λ x. (x.0, x.1.now)) result (reading.service_entry_at bytes.now) }
{
    let (first, rest) = byte_at(bytes)?;
    match first {
        BEGUN => begun_at(alloc, rest),
        SETTLED => settled_at(rest),
        GIVEN => given_at(rest),
        _ => Err(Unread::OutsideGrammar),
    }
}

#[tactic(auto, unfolding(crate::specs::Reading::epoch_entry_at))]
fn epoch_entry_at(bytes: &[u8]) -> Result<(CellEntry, &[u8]), Unread>
    ensures { Gives (λ x. (x.0, x.1.now)) result (reading.epoch_entry_at bytes.now) }
{
    let (epoch, rest) = epoch_at(bytes)?;
    Ok((CellEntry::Epoch { epoch }, rest))
}

#[tactic(auto, unfolding(crate::specs::Reading::recorded_at))]
fn recorded_at(alloc: Global, bytes: &[u8]) -> Result<(CellEntry, &[u8]), Unread>
    ensures { Gives (λ x. (x.0, x.1.now)) result (reading.recorded_at bytes.now) }
{
    let (lease, rest) = lease_at(bytes)?;
    let (change, rest) = change_at(alloc, rest)?;
    let (ops, rest) = operations_at(alloc, rest)?;
    Ok((CellEntry::Recorded { lease, change, ops }, rest))
}

#[tactic(auto, unfolding(crate::specs::Reading::row_gone_at))]
fn row_gone_at(bytes: &[u8]) -> Result<(CellEntry, &[u8]), Unread>
    ensures { Gives (λ x. (x.0, x.1.now)) result (reading.row_gone_at bytes.now) }
{
    let (lease, rest) = lease_at(bytes)?;
    Ok((CellEntry::RowGone { lease }, rest))
}

#[tactic(auto, unfolding(crate::specs::Reading::got_at))]
fn got_at(bytes: &[u8]) -> Result<(CellEntry, &[u8]), Unread>
    ensures { Gives (λ x. (x.0, x.1.now)) result (reading.got_at bytes.now) }
{
    let (number, rest) = range_number_at(bytes)?;
    let ((low, high), rest) = ends_at(rest)?;
    Ok((CellEntry::Got { number, low, high }, rest))
}

#[tactic(auto, unfolding(crate::specs::Reading::cell_entry_at))]
fn cell_entry_at(alloc: Global, bytes: &[u8]) -> Result<(CellEntry, &[u8]), Unread>
    ensures { Gives (λ x. (x.0, x.1.now)) result (reading.cell_entry_at bytes.now) }
{
    let (first, rest) = byte_at(bytes)?;
    match first {
        EPOCH => epoch_entry_at(rest),
        RECORDED => recorded_at(alloc, rest),
        ROW_GONE => row_gone_at(rest),
        GOT => got_at(rest),
        _ => Err(Unread::OutsideGrammar),
    }
}

fn whole_service_entry(alloc: Global, body: &[u8]) -> Result<ServiceEntry, Unread>
    ensures { Gives (λ entry. entry) result (reading.whole reading.service_entry_at body.now) }
{
    let (entry, rest) = service_entry_at(alloc, body)?;
    if !rest.is_empty() {
        return Err(Unread::OutsideGrammar);
    }
    Ok(entry)
}

/// The entry that a body of the service's journal is, or `None` exactly where it is none: it has not
/// the form of `specs/Spelling` to its last byte, or something in it is outside the bounds of
/// `claim_types/specs/EntryBounds`.
pub fn read_service(alloc: Global, body: &[u8]) -> Result<Option<ServiceEntry>, NoMemory>
    ensures some { IfOk result (λ found. IfSome found (IsServiceBody body.now)) }
    ensures only { FindsService result body.now }
    ensures none { IfOk result (λ found. IfNone found (IsNoServiceBody body.now)) }
{
    match whole_service_entry(alloc, body) {
        Ok(entry) => Ok(Some(entry)),
        Err(Unread::OutsideGrammar) => Ok(None),
        Err(Unread::Memory) => Err(NoMemory),
    }
}

fn whole_cell_entry(alloc: Global, body: &[u8]) -> Result<CellEntry, Unread>
    ensures { Gives (λ entry. entry) result (reading.whole reading.cell_entry_at body.now) }
{
    let (entry, rest) = cell_entry_at(alloc, body)?;
    if !rest.is_empty() {
        return Err(Unread::OutsideGrammar);
    }
    Ok(entry)
}

/// The entry that a body of a cell's journal is, or `None` exactly where it is none: it has not
/// the form of `specs/Spelling` to its last byte, or something in it is outside the bounds of
/// `claim_types/specs/EntryBounds`.
pub fn read_cell(alloc: Global, body: &[u8]) -> Result<Option<CellEntry>, NoMemory>
    ensures some { IfOk result (λ found. IfSome found (IsCellBody body.now)) }
    ensures only { FindsCell result body.now }
    ensures none { IfOk result (λ found. IfNone found (IsNoCellBody body.now)) }
{
    match whole_cell_entry(alloc, body) {
        Ok(entry) => Ok(Some(entry)),
        Err(Unread::OutsideGrammar) => Ok(None),
        Err(Unread::Memory) => Err(NoMemory),
    }
}

/// No body is the form of two entries of the service's journal.
pub fn one_service_entry()
    ensures { (a b : ServiceEntry) → IsServiceEntry a → IsServiceEntry b →
        service_entry_bytes a ≡ service_entry_bytes b → a ≡ b }
{}

/// No body is the form of two entries of a cell's journal.
pub fn one_cell_entry()
    ensures { (a b : CellEntry) → IsCellEntry a → IsCellEntry b →
        cell_entry_bytes a ≡ cell_entry_bytes b → a ≡ b }
{}
