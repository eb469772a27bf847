//! What a rename creates and destroys, in one walk over the records behind its record.
ghost use Rattle.std.specs.Prelude.{◌≡◌, ◌+◌, ◌<◌, ◌≤◌, length, map, drop, take, slice_index_or, IfOk, OnOk, Some};
ghost use Rattle.claim_map.specs.Trees.{AreRows, AreAscending};
ghost use Rattle.claim_map.specs.Records.{renamed as with_name};
ghost use Rattle.claim_map.specs.Claims.{route_of, claims_from, operations_between};
ghost use Rattle.record_tree.specs.Answer.{claim_at as the_claim};
ghost use Rattle.record_tree.specs.Kept.{AreAbove};
ghost use Rattle.record_tree.specs.Between.{HasOtherName, between_renamed};
ghost use Rattle.record_tree.specs.Walking.{Fits};
ghost use Rattle.claim_types.specs.declared.record.Record.{Record};
ghost use Rattle.std.specs.Prelude.{[], ◌∷◌, ◌++◌};
ghost use Rattle.record_tree.specs.Moved.{moved_on, moved_among, operations_of_moved};

use crate::kinds::goes_on;
use crate::places::route_place;
use crate::routes::{claim_at, route};
use claim_types::{Copied, Create, Creates, Keys, NoMemory, Operations, Record, Text};
use std::alloc::Global;

fn behind(records: &[Record], at: usize) -> &[Record]
    requires { at ≤ length records.now }
    ensures { result.now ≡ drop at records.now }
{
    &records[at..]
}

// The route of a record among claims that stand in the order of their records.
pub fn route_among(alloc: Global, claims: &[Create], id: u64) -> Result<Option<Text>, NoMemory>
    requires { AreRows 0 claims.now }
    ensures { IfOk result (λ o. o ≡ route_of claims.now id) }
{
    let Some(at) = route_place(claims, id) else {
        return Ok(None);
    };
    let route = claims[at].key.value.copy(alloc)?;
    Ok(Some(route))
}

// Passes a record: its claim moves where its route goes on from one that moved.
fn pass(
    alloc: Global,
    before: &mut Creates,
    afterwards: &mut Creates,
    item: &Record,
) -> Result<(), NoMemory>
    requires rows_before { AreRows 0 before.old }
    requires rows_after { AreRows 0 afterwards.old }
    ensures { OnOk result (moved_on (record { before = before.old; afterwards = afterwards.old }) item.now ≡
        record { before = before.new; afterwards = afterwards.new }) }
{
    if !goes_on(item.kind) {
        return Ok(());
    }
    let Some(above) = route_among(alloc, afterwards.as_slice(), item.parent)? else {
        return Ok(());
    };
    let was_above = route_among(alloc, before.as_slice(), item.parent)?;
    let name = item.name.as_slice();
    let new = claim_at(alloc, Some(above), item.id, item.kind, item.parent, name)?;
    let old = claim_at(alloc, was_above, item.id, item.kind, item.parent, name)?;
    before.push(old)?;
    afterwards.push(new)?;
    Ok(())
}

// Passes all records behind.
fn pass_all(
    alloc: Global,
    before: &mut Creates,
    afterwards: &mut Creates,
    rest: &[Record],
) -> Result<(), NoMemory>
    requires { Fits (record { before = before.old; afterwards = afterwards.old }) rest.now }
    ensures { OnOk result (moved_among (record { before = before.old; afterwards = afterwards.old }) rest.now ≡
        record { before = before.new; afterwards = afterwards.new }) }
{
    for item in rest {
        pass(alloc, before, afterwards, item)?;
    }
    Ok(())
}

fn keys_of(alloc: Global, claims: Creates) -> Result<Keys, NoMemory>
    ensures { IfOk result (λ keys. keys ≡ map (λ c. c.key) claims) }
{
    let keys = claims
        .into_vec()
        .into_iter()
        .map(|claim| claim.key)
        .collect(alloc)?;
    Ok(Keys::from_vec(keys))
}

// What moves where at first one record's claim does, with the records behind it.
fn moved(alloc: Global, old: Create, new: Create, rest: &[Record]) -> Result<Operations, NoMemory>
    requires { Fits (record { before = old ∷ []; afterwards = new ∷ [] }) rest.now }
    ensures { IfOk result (λ ops. ops ≡
        operations_of_moved (moved_among (record { before = old ∷ []; afterwards = new ∷ [] }) rest.now)) }
{
    let mut before = Creates::new(alloc);
    before.push(old)?;
    let mut afterwards = Creates::new(alloc);
    afterwards.push(new)?;
    pass_all(alloc, &mut before, &mut afterwards, rest)?;
    let destroys = keys_of(alloc, before)?;
    Ok(Operations {
        creates: afterwards,
        destroys,
    })
}

/// The operations of a rename of the record in this place to another name.
pub fn rename_operations(
    alloc: Global,
    records: &[Record],
    at: usize,
    name: &[u8],
) -> Result<Operations, NoMemory>
    requires ascending { AreAscending 0 records.now }
    requires above { AreAbove records.now }
    requires within { at < length records.now }
    requires other { HasOtherName records.now at name.now }
    ensures { (d : Record) → IfOk result (λ ops. ops ≡
        between_renamed records.now (slice_index_or records.now at d).id name.now) }
{
    let item = &records[at];
    let above = route(alloc, records, item.parent)?;
    let still_above = route(alloc, records, item.parent)?;
    let old_name = item.name.as_slice();
    let old = claim_at(alloc, above, item.id, item.kind, item.parent, old_name)?;
    let new = claim_at(alloc, still_above, item.id, item.kind, item.parent, name)?;
    let operations = moved(alloc, old, new, behind(records, at + 1))?;
    Ok(operations)
}
