//! Which records may be added as they are.
ghost use Rattle.std.specs.Prelude.{◌≡◌, ◌<◌, ◌↔◌, IsTrue, IfOk, false};
ghost use Rattle.std.specs.List.{Contains};
ghost use Rattle.claim_types.specs.Keys.{key_of};
ghost use Rattle.claim_types.specs.declared.record.Record.{Record as TheRecord};
ghost use Rattle.claim_map.specs.Trees.{AreAscending, AreRising};
ghost use Rattle.claim_map.specs.Rules.{is_refused};
ghost use Rattle.record_tree.specs.Adding.{claim_behind as the_claim, TellsAdded};
ghost use Rattle.record_tree.specs.Indexed.{IsWhole};
ghost use Rattle.record_tree.specs.Kept.{AreAbove};

use crate::changes::one_created;
use crate::ranges::is_used;
use crate::routes::{claim_at, route};
use crate::rules::placed;
use claim_types::{ClaimKey, Create, KeyFault, NoMemory, Operations, Range, Record, Rule};
use key_table::KeyMap;
use std::alloc::Global;

// Whether an identifier is above those of all records.
fn is_last(records: &[Record], id: u64) -> bool
    requires { AreAscending 0 records.now }
    ensures { IsTrue result ↔ ((q : TheRecord) → Contains records.now q → q.id < id) }
{
    let at = records.partition_point(|record| record.id < id);
    at == records.len()
}

// The claim that a record has behind the others.
fn claim_behind(alloc: Global, records: &[Record], item: &Record) -> Result<Create, NoMemory>
    requires ascending { AreAscending 0 records.now }
    requires above { AreAbove records.now }
    ensures { IfOk result (λ c. c ≡ the_claim records.now item.now) }
{
    let above = route(alloc, records, item.parent)?;
    let name = item.name.as_slice();
    claim_at(alloc, above, item.id, item.kind, item.parent, name)
}

// Whether a key is within its grammar.
fn is_key(alloc: Global, key: &ClaimKey) -> Result<bool, NoMemory>
    ensures { IfOk result (λ is. IsTrue is ↔ (is_refused (key_of key.now.bucket key.now.value) ≡ false)) }
{
    match ClaimKey::read(alloc, key.bucket, key.value.as_slice()) {
        Ok(_) => Ok(true),
        Err(KeyFault::Memory) => Err(NoMemory),
        Err(_) => Ok(false),
    }
}

/// The operations that adding a record behind these is, if it may be added.
pub fn adding(
    alloc: Global,
    records: &[Record],
    index: &KeyMap<u64>,
    used: u64,
    known: &[Range],
    item: &Record,
) -> Result<Option<Operations>, NoMemory>
    requires whole { IsWhole records.now index.now }
    requires rising { AreRising 0 known.now }
    ensures { IfOk result (TellsAdded records.now used known.now item.now) }
{
    if !is_used(known, used, item.id) {
        return Ok(None);
    }
    if !is_last(records, item.id) {
        return Ok(None);
    }
    match placed(records, item.kind, item.parent) {
        Ok(()) => {}
        Err(Rule::Memory) => return Err(NoMemory),
        Err(_) => return Ok(None),
    }
    let claim = claim_behind(alloc, records, item)?;
    if !is_key(alloc, &claim.key)? {
        return Ok(None);
    }
    if index
        .get(claim.key.bucket, claim.key.value.as_slice())
        .is_some()
    {
        return Ok(None);
    }
    let operations = one_created(alloc, claim)?;
    Ok(Some(operations))
}
