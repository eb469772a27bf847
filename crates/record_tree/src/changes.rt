//! The operations of each change of records, or the first rule that speaks against it.
ghost use Rattle.std.specs.Prelude.{◌≡◌, ◌<◌, [], ◌∷◌, nat_eq, length, slice_index_or, unwrap_or, Option, IfOk};
ghost use Rattle.std.specs.List.{find};
ghost use Rattle.claim_types.specs.declared.record.Record.{Record};
ghost use Rattle.claim_types.specs.declared.rule.Rule.{Rule as TheRule};
ghost use Rattle.claim_map.specs.Trees.{AreAscending};
ghost use Rattle.claim_map.specs.Claims.{claims_from};
ghost use Rattle.record_tree.specs.Answer.{Gives, Refuses, or_operations};
ghost use Rattle.record_tree.specs.Answers.{create_answer, rename_answer, remove_answer};
ghost use Rattle.record_tree.specs.Between.{between_renamed};
ghost use Rattle.record_tree.specs.Indexed.{IsWhole};
ghost use Rattle.record_tree.specs.Kept.{AreAbove, NoRow};
ghost use Rattle.record_tree.specs.Refusals.{create_refusal, rename_refusal, remove_refusal, same_name};

use crate::places::place_of;
use crate::routes::{claim_at, route};
use crate::rules::{
    childless, few, placed, renamable, renamed, unspent, untaken, well_named, with_id,
};
use crate::walk::rename_operations;
use claim_types::{
    ClaimKey, Create, Creates, Keys, Kind, NoMemory, Operations, Record, Rule, lowered,
};
use key_table::KeyMap;
use std::alloc::Global;

type Index = KeyMap<u64>;

fn create_rules(
    alloc: Global,
    records: &[Record],
    index: &Index,
    version: u64,
    kind: Kind,
    parent: u64,
    name: &[u8],
    next: Option<u64>,
    ops: &Operations,
) -> Result<(), Rule>
    requires { IsWhole records.now index.now }
    ensures { Refuses result (create_refusal index.now version kind parent name.now (find
        (λ r. nat_eq r.id parent) records.now) next ops.now) }
{
    placed(records, kind, parent)?;
    well_named(alloc, kind, name, ops)?;
    untaken(alloc, index, ops.creates.as_slice())?;
    few(ops)?;
    with_id(next)?;
    unspent(version)
}

fn rename_rules(
    alloc: Global,
    index: &Index,
    version: u64,
    name: &[u8],
    item: &Record,
    ops: &Operations,
) -> Result<(), Rule>
    ensures { Refuses result (rename_refusal index.now version name.now item.now ops.now) }
{
    renamable(item.kind)?;
    well_named(alloc, item.kind, name, ops)?;
    renamed(alloc, item.name.as_slice(), name)?;
    untaken(alloc, index, ops.creates.as_slice())?;
    few(ops)?;
    unspent(version)
}

fn remove_rules(records: &[Record], version: u64, id: u64) -> Result<(), Rule>
    ensures { Refuses result (remove_refusal records.now version id) }
{
    childless(records, id)?;
    unspent(version)
}

// The operations, unless a rule speaks against them.
fn unless(rules: Result<(), Rule>, operations: Operations) -> Result<Operations, Rule>
    ensures { (due : Option TheRule) → Refuses rules due → Gives result (or_operations due operations) }
{
    match rules {
        Ok(()) => Ok(operations),
        Err(rule) => Err(rule),
    }
}

/// The operations that create one claim.
pub fn one_created(alloc: Global, claim: Create) -> Result<Operations, NoMemory>
    ensures { IfOk result (λ ops. ops ≡ record { creates = claim ∷ []; destroys = [] }) }
{
    let mut creates = Creates::new(alloc);
    creates.push(claim)?;
    Ok(Operations {
        creates,
        destroys: Keys::new(alloc),
    })
}

fn one_destroyed(alloc: Global, key: ClaimKey) -> Result<Operations, NoMemory>
    ensures { IfOk result (λ ops. ops ≡ record { creates = []; destroys = key ∷ [] }) }
{
    let mut destroys = Keys::new(alloc);
    destroys.push(key)?;
    Ok(Operations {
        creates: Creates::new(alloc),
        destroys,
    })
}

fn nothing(alloc: Global) -> Operations
    ensures { result ≡ record { creates = []; destroys = [] } }
{
    Operations {
        creates: Creates::new(alloc),
        destroys: Keys::new(alloc),
    }
}

fn is_same_name(alloc: Global, a: &[u8], b: &[u8]) -> Result<bool, NoMemory>
    ensures { IfOk result (λ same. same ≡ same_name a.now b.now) }
{
    let old = lowered(alloc, a)?;
    let new = lowered(alloc, b)?;
    Ok(old == new)
}

// The operations of a rename of the record in this place.
fn operations_in_place(
    alloc: Global,
    records: &[Record],
    at: usize,
    name: &[u8],
) -> Result<Operations, NoMemory>
    requires ascending { AreAscending 0 records.now }
    requires above { AreAbove records.now }
    requires within { at < length records.now }
    ensures { (d : Record) → IfOk result (λ ops. ops ≡
        between_renamed records.now (slice_index_or records.now at d).id name.now) }
{
    let old_name = records[at].name.as_slice();
    if is_same_name(alloc, old_name, name)? {
        return Ok(nothing(alloc));
    }
    rename_operations(alloc, records, at, name)
}

/// The answer to the create of a record with this next identifier.
pub fn create(
    alloc: Global,
    records: &[Record],
    index: &Index,
    version: u64,
    kind: Kind,
    parent: u64,
    name: &[u8],
    next: Option<u64>,
) -> Result<Operations, Rule>
    requires whole { IsWhole records.now index.now }
    requires free { NoRow (unwrap_or next 0) (claims_from [] records.now) }
    ensures { Gives result (create_answer records.now index.now version kind parent name.now next) }
{
    let id = next.unwrap_or(0);
    let above = route(alloc, records, parent)?;
    let claim = claim_at(alloc, above, id, kind, parent, name)?;
    let operations = one_created(alloc, claim)?;
    let rules = create_rules(
        alloc,
        records,
        index,
        version,
        kind,
        parent,
        name,
        next,
        &operations,
    );
    unless(rules, operations)
}

/// The answer to the rename of a record.
pub fn rename(
    alloc: Global,
    records: &[Record],
    index: &Index,
    version: u64,
    id: u64,
    name: &[u8],
) -> Result<Operations, Rule>
    requires { IsWhole records.now index.now }
    ensures { Gives result (rename_answer records.now index.now version id name.now) }
{
    let Some(at) = place_of(records, id) else {
        return Err(Rule::NoSuchRecord);
    };
    let item = &records[at];
    let operations = operations_in_place(alloc, records, at, name)?;
    let rules = rename_rules(alloc, index, version, name, item, &operations);
    unless(rules, operations)
}

/// The answer to the remove of a record.
pub fn remove(alloc: Global, records: &[Record], version: u64, id: u64) -> Result<Operations, Rule>
    requires ascending { AreAscending 0 records.now }
    requires above { AreAbove records.now }
    ensures { Gives result (remove_answer records.now version id) }
{
    let Some(at) = place_of(records, id) else {
        return Err(Rule::NoSuchRecord);
    };
    let item = &records[at];
    let above = route(alloc, records, item.parent)?;
    let name = item.name.as_slice();
    let claim = claim_at(alloc, above, item.id, item.kind, item.parent, name)?;
    let operations = one_destroyed(alloc, claim.key)?;
    unless(remove_rules(records, version, id), operations)
}
